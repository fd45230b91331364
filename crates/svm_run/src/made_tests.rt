// Generated input, and the words that ask for it. The sums are worked out by hand.

use crate::status::{OutsideFault, Status};
use crate::tests::{HALT, Job, ends_as};
use crate::usage::usage;
use std::test::Fail;

/// Of seed 7 and size 3 each vcpu adds three numbers: 7, 8 and 9, those of vcpu 1 one more, and so on.
const SMALL: &str =
    "made seed=7 size=3 events=20\nrax 0.0=18\nrax 0.1=1b\nrax 0.2=1e\nrax 0.3=21\nkeeps events=20\n";

/// Of seed 126 the numbers are 126, 127, 0 for vcpu 0; 127, 0, 1; 0, 1, 2; 1, 2, 3.
const OVER: &str =
    "made seed=126 size=3 events=20\nrax 0.0=fd\nrax 0.1=80\nrax 0.2=3\nrax 0.3=6\nkeeps events=20\n";

#[test]
fn generated_input_is_summed_up(rt: HostRuntime) -> Result<(), Fail> {
    let table = [
        (
            Job {
                words: &["made", "7", "3"],
                ..HALT
            },
            Status::Done,
            SMALL,
        ),
        (
            Job {
                words: &["made", "126", "3"],
                ..HALT
            },
            Status::Done,
            OVER,
        ),
        (
            Job {
                words: &["made", "7", "3"],
                sink_fails: Some(0),
                ..HALT
            },
            Status::OutsideFault(OutsideFault::Write),
            "",
        ),
        (
            Job {
                words: &["made", "65536", "1"],
                ..HALT
            },
            Status::Words,
            "refused words\n",
        ),
        (
            Job {
                words: &["made", "+7", "1"],
                ..HALT
            },
            Status::Words,
            "refused words\n",
        ),
        (
            Job {
                words: &["made", "", "1"],
                ..HALT
            },
            Status::Words,
            "refused words\n",
        ),
        (
            Job {
                words: &["made", "7", "0"],
                ..HALT
            },
            Status::Words,
            "refused words\n",
        ),
        (
            Job {
                words: &["made", "7", "100001"],
                ..HALT
            },
            Status::Words,
            "refused words\n",
        ),
    ];
    for (job, status, text) in table {
        ends_as(&rt, rt.alloc(), job, status, text, 0)?;
    }
    Ok(())
}

#[test]
fn usage_tells_the_four_forms(rt: HostRuntime) -> Result<(), Fail> {
    let text = usage(rt.alloc())?;
    for form in [
        "svm_run run IMAGE SCRIPT\n",
        "svm_run trace IMAGE SCRIPT\n",
        "svm_run audit IMAGE SCRIPT\n",
        "svm_run made SEED SIZE\n",
    ] {
        assert!(rt; text.as_str().contains(form), "{form}");
    }
    Ok(())
}
