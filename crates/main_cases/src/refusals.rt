//! Scripts and words that `live` refuses.
use crate::asked::USAGE;
use crate::program::is_answered;
use std::test::Fail;

/// A script with a schedule is refused at its first step, by rule 20; but where a line breaks another rule, also one after that
/// step, by that one. A second line of chances is refused under each command that reads a script.
#[test]
fn scripts_with_a_schedule_are_refused(rt: HostRuntime) -> Result<(), Fail> {
    let scripts: [(&[u8], &[u8]); 4] = [
        (
            b"geo 1\ncluster a\ncluster b\n# a comment\ntopic t\nclient p t a\nreconnect p\nsettle\n",
            b"bad script line 7 rule 20\n",
        ),
        (
            b"geo 1\ncluster a\ncluster b\ntopic t\nsettle\nsettle\n",
            b"bad script line 5 rule 20\n",
        ),
        (
            b"geo 1\ncluster a\ncluster b\ntopic t\nsettle\ntopik u\n",
            b"bad script line 6 rule 3\n",
        ),
        (
            b"geo 1\nchance 1 2 3 4\nledger 7\nchance 1 2 3 4\ncluster a\ncluster b\ntopic t\n",
            b"bad script line 4 rule 7\n",
        ),
    ];
    for (script, line) in scripts {
        assert!(rt; is_answered(&rt, rt.alloc(), &["live", "2", "5"], script, 3, line)?);
    }
    Ok(())
}

/// One worker and one turn at least, 64 workers and 2,000,000 turns of all together at most.
#[test]
fn so_many_workers_and_turns(rt: HostRuntime) -> Result<(), Fail> {
    let lines: [&[&str]; 9] = [
        &["live"],
        &["live", "1"],
        &["live", "0", "1"],
        &["live", "1", "0"],
        &["live", "65", "1"],
        &["live", "1", "2000001"],
        &["live", "64", "31251"],
        &["live", "01", "1"],
        &["live", "1", "1", "1"],
    ];
    for line in lines {
        assert!(rt; is_answered(&rt, rt.alloc(), line, b"", 2, USAGE)?);
    }
    Ok(())
}
