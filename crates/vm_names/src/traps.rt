// Exceptions that instructions raise (volume 2, 'Vectors').

use svm_model::{Cause, Trap};

/// #DE, the divide error.
pub const DIVIDE_ERROR: Trap = Trap {
    vector: 0,
    code: None,
    address: None,
    cause: Cause::Fault,
};

/// #UD, the invalid opcode.
pub const INVALID_OPCODE: Trap = Trap {
    vector: 6,
    code: None,
    address: None,
    cause: Cause::Fault,
};

/// #GP(0), the general-protection exception.
pub const GENERAL_PROTECTION: Trap = Trap {
    vector: 13,
    code: Some(0),
    address: None,
    cause: Cause::Fault,
};
