// Where the search of the table begins: at the first line with the opcode.
ghost use Rattle.std.specs.Prelude.{◌≤◌};
ghost use Rattle.svm_model.specs.Instructions.RowTable.{table};
ghost use Rattle.row_table.specs.Index.{IsPassed, is_beside, misses, primary, secondary};

use svm_model::OpcodeMap;

/// How many lines come before the first one with an opcode of the primary map, or all lines where none has it.
#[rattlefmt::skip]
const PRIMARY: [u8; 256] = [
      0,   1,   2,   3,   4,   5, 137, 137,   0,   1,   2,   3,   4,   5, 137, 137,
      0,   1,   2,   3,   4,   5, 137, 137,   0,   1,   2,   3,   4,   5, 137, 137,
      0,   1,   2,   3,   4,   5, 137, 137,   0,   1,   2,   3,   4,   5, 137, 137,
      0,   1,   2,   3,   4,   5, 137, 137,   0,   1,   2,   3,   4,   5, 137, 137,
    137, 137, 137, 137, 137, 137, 137, 137, 137, 137, 137, 137, 137, 137, 137, 137,
     70,  70,  70,  70,  70,  70,  70,  70,  74,  74,  74,  74,  74,  74,  74,  74,
    137, 137, 137,  52, 137, 137, 137, 137,  72,  28,  73,  29, 137, 137, 137, 137,
     83,  83,  83,  83,  83,  83,  83,  83,  83,  83,  83,  83,  83,  83,  83,  83,
      6,   7, 137,   8,   9,  10,  54,  55,  40,  41,  42,  43, 137,  53, 137,  75,
     56,  57,  57,  57,  57,  57,  57,  57,  88,  89, 137, 137, 105, 106, 137, 137,
    137, 137, 137, 137, 137, 137, 137, 137,  11,  12, 137, 137, 137, 137, 137, 137,
     46,  46,  46,  46,  46,  46,  46,  46,  47,  47,  47,  47,  47,  47,  47,  47,
     34,  35,  79,  78, 137, 137,  44,  45, 137,  87, 137, 137, 107, 108, 137, 109,
     36,  37,  38,  39, 137, 137, 137, 137, 137, 137, 137, 137, 137, 137, 137, 137,
    137, 137, 137, 137, 110, 111, 114, 115,  76,  80, 137,  81, 112, 113, 116, 117,
    137, 137, 137, 137, 101,  92,  13,  14,  90,  91, 103, 104,  93,  94,  30,  31,
];

/// How many lines come before the first one with an opcode of the secondary map, or all lines where none has it.
#[rattlefmt::skip]
const SECONDARY: [u8; 256] = [
    137, 126, 137, 137, 137, 137, 137, 137, 137, 137, 137, 102, 137, 137, 137, 137,
    137, 137, 137, 137, 137, 137, 137, 137, 137, 137, 137, 137, 137, 137, 137,  96,
    118, 120, 119, 121, 137, 137, 137, 137, 137, 137, 137, 137, 137, 137, 137, 137,
    123, 125, 122, 137, 137, 137, 137, 137, 137, 137, 137, 137, 137, 137, 137, 137,
     86,  86,  86,  86,  86,  86,  86,  86,  86,  86,  86,  86,  86,  86,  86,  86,
    137, 137, 137, 137, 137, 137, 137, 137, 137, 137, 137, 137, 137, 137, 137, 137,
    137, 137, 137, 137, 137, 137, 137, 137, 137, 137, 137, 137, 137, 137, 137, 137,
    137, 137, 137, 137, 137, 137, 137, 137, 137, 137, 137, 137, 137, 137, 137, 137,
     84,  84,  84,  84,  84,  84,  84,  84,  84,  84,  84,  84,  84,  84,  84,  84,
     85,  85,  85,  85,  85,  85,  85,  85,  85,  85,  85,  85,  85,  85,  85,  85,
    137, 137, 124,  66, 137, 137, 137, 137, 137, 137, 137,  67, 137, 137,  97,  27,
     58,  59, 137,  68, 137, 137,  48,  49, 137, 137,  62,  69, 137, 137,  50,  51,
     60,  61, 137, 137, 137, 137, 137, 137, 137, 137, 137, 137, 137, 137, 137, 137,
    137, 137, 137, 137, 137, 137, 137, 137, 137, 137, 137, 137, 137, 137, 137, 137,
    137, 137, 137, 137, 137, 137, 137, 137, 137, 137, 137, 137, 137, 137, 137, 137,
    137, 137, 137, 137, 137, 137, 137, 137, 137, 137, 137, 137, 137, 137, 137, 137,
];

/// How many lines come before those of the map after F3h.
const REPEAT: usize = 100;

/// How many lines come before the first one of a map.
#[tactic(auto, unfolding(svm_model::specs::Instructions::RowTable::table))]
pub fn first_of_map(map: OpcodeMap) -> usize
    ensures passed { IsPassed (is_beside map) result table }
    ensures within { result ≤ 137 }
{
    match map {
        OpcodeMap::Primary => 0,
        OpcodeMap::Secondary => 27,
        OpcodeMap::Repeat => REPEAT,
    }
}

fn first_primary(opcode: u8) -> u8
    ensures passed { IsPassed (misses primary opcode) result table }
    ensures within { result ≤ 137 }
{
    PRIMARY[opcode as usize]
}

fn first_secondary(opcode: u8) -> u8
    ensures passed { IsPassed (misses secondary opcode) result table }
    ensures within { result ≤ 137 }
{
    SECONDARY[opcode as usize]
}

/// How many lines come before the first one with an opcode: none of them has the opcode.
pub fn first_with(map: OpcodeMap, opcode: u8) -> usize
    ensures passed { IsPassed (misses map opcode) result table }
    ensures within { result ≤ 137 }
{
    match map {
        OpcodeMap::Primary => usize::from(first_primary(opcode)),
        OpcodeMap::Secondary => usize::from(first_secondary(opcode)),
        OpcodeMap::Repeat => REPEAT,
    }
}
