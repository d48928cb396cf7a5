// The command over sources and sinks in memory: the expected lines were worked out by hand.
ghost use Rattle.std.specs.Prelude.{◌≡◌, ◌≤◌, ◌<◌, ◌↔◌, ℕ, List, [], length, take, ◌++◌, Ok, IfOk, OnErr};
ghost use Rattle.outside_io.specs.Count.{Rose};

use outside_io::{Failed, MemSink, MemSource, Source};
use proof_command::check_proof;
use std::alloc::{AllocError, Global};
use std::test::Fail;

// The status and the output for this text, where the calls of these numbers fail.
fn checked(
    alloc: Global,
    text: &[u8],
    failing_reads: &[u32],
    failing_writes: &[u32],
) -> Result<(u8, String), AllocError> {
    let mut source = MemSource::new(
        Vec::from_slice(alloc, text)?,
        4,
        Vec::from_slice(alloc, failing_reads)?,
    );
    let mut sink = MemSink::new(alloc, 100, 5, Vec::from_slice(alloc, failing_writes)?)?;
    let status = check_proof(alloc, &mut source, &mut sink).number();
    Ok((status, String::from_utf8_lossy(alloc, sink.bytes())?))
}

const SQUARE: &str = "c 1 2 0\nc 1 -2 0\nc -1 2 0\nc -1 -2 0\ns 1 0 1 2 0\n";

#[test]
fn verdicts_are_written(rt: HostRuntime) -> Result<(), Fail> {
    let alloc = rt.alloc();
    let rows = [
        ("s 0 5 3 4 0\n", 0, "accepted\n"),
        ("s 0 5 3 4 0", 0, "accepted\n"),
        ("s 0 3 4 0\n", 1, "refused step 2 hint 1\n"),
        ("", 1, "no empty clause\n"),
        ("s 2 0 6 0", 1, "refused step 2 hint 1\n"),
        ("s 0 5 3 0", 1, "refused step 2 hint 2\n"),
        ("s 0 5 3 4", 3, "fault proof line 6 bad_line\n"),
        ("s 1 2 -1 0 5 0", 3, "fault proof line 6 tautology\n"),
        (
            "s 0 2147483648 0",
            3,
            "fault proof line 6 number_too_large\n",
        ),
    ];
    for (last, status, line) in rows {
        let text = format!(in alloc; "{SQUARE}{last}")?;
        let (found, written) = checked(alloc, text.as_bytes(), &[], &[])?;
        assert_eq!(rt; written.as_str(), line, "{last}");
        assert_eq!(rt; found, status, "{last}");
    }
    Ok(())
}

#[test]
fn texts_of_a_line_are_checked(rt: HostRuntime) -> Result<(), Fail> {
    let alloc = rt.alloc();
    let rows = [
        ("", 1, "no empty clause\n"),
        ("s 1 0 0\n", 1, "refused step 1 hint 0\n"),
        ("s 1 0 2 0\n", 1, "refused step 1 hint 1\n"),
        ("c 0\ns 0 1 0\n", 0, "accepted\n"),
        ("c 1 -1 0\nc 1 2 0\n", 3, "fault proof line 1 tautology\n"),
        ("s 1 0 0\nc 1 0\n", 3, "fault proof line 2 bad_line\n"),
        ("\r\n c 1 0 \r\n\nx", 3, "fault proof line 4 bad_line\n"),
    ];
    for (text, status, line) in rows {
        let (found, written) = checked(alloc, text.as_bytes(), &[], &[])?;
        assert_eq!(rt; written.as_str(), line, "{text}");
        assert_eq!(rt; found, status, "{text}");
    }
    Ok(())
}

#[test]
fn what_failed_is_told(rt: HostRuntime) -> Result<(), Fail> {
    let alloc = rt.alloc();
    let (status, written) = checked(alloc, b"c 0\ns 0 1 0\n", &[2], &[])?;
    assert_eq!(rt; (status, written.as_str()), (5, ""));
    let (status, written) = checked(alloc, b"c 0\ns 0 1 0\n", &[], &[2])?;
    assert_eq!(rt; (status, written.as_str()), (6, "accep"));
    Ok(())
}

// Line feeds that lie nowhere in memory.
#[derive(Drop)]
struct LineFeeds {
    left: usize,
}

impl Source for LineFeeds {
    ghost tells = { λ _. ⊥ };

    ghost left = { λ _. [] };

    ghost faults = { λ _. 0 };

    fn read(&mut self, into: &mut [u8]) -> Result<usize, Failed> {
        let count = into.len().min(self.left);
        for byte in &mut into[..count] {
            *byte = b'\n';
        }
        self.left -= count;
        Ok(count)
    }
}

#[test]
fn a_byte_too_many_is_too_long(rt: HostRuntime) -> Result<(), Fail> {
    let alloc = rt.alloc();
    let rows = [
        (268_435_456, 1, "no empty clause\n"),
        (268_435_457, 3, "fault proof too_long\n"),
        (268_435_500, 3, "fault proof too_long\n"),
    ];
    for (left, status, line) in rows {
        let mut source = LineFeeds { left };
        let mut sink = MemSink::new(alloc, 100, 100, Vec::new(alloc))?;
        assert_eq!(rt; check_proof(alloc, &mut source, &mut sink).number(), status);
        assert_eq!(rt; sink.bytes(), line.as_bytes());
        assert_eq!(rt;
            source.left,
            if left > 268_435_457 {
                left - 268_435_457
            } else {
                0
            }
        );
    }
    Ok(())
}
