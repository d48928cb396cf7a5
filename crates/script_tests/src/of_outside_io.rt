// What no clause says: that calls succeed with ample memory, and what the library's reader and writer do.
ghost use Rattle.std.specs.Prelude.{◌<◌};

use outside_io::{
    Failed, MemSink, MemSource, ReadFault, Sink, Source, Status, StdSink, StdSource, finish,
    read_all, write_all,
};
use std::alloc::{AllocError, Global};
use std::io::{self, ErrorKind, Read, Write};
use std::test::Fail;

// A source of ten bytes, at most so many a call, in which the call of this number fails, if there is one.
fn ten_bytes(alloc: Global, most: usize, fails: u32) -> Result<MemSource, AllocError>
    requires { 0 < most }
{
    Ok(MemSource::new(b"abcdefghij".to_vec(alloc)?, most, vec![in alloc; fails]?))
}

// Whether a call gives this answer, and these bytes.
fn gives(source: &mut MemSource, answer: Result<usize, Failed>, piece: &[u8]) -> bool {
    let mut buffer = [0; 8];
    let got = source.read(&mut buffer);
    got == answer && &buffer[..got.unwrap_or(0).min(8)] == piece
}

#[test]
fn a_source_fails_in_its_second_call_and_goes_on(rt: HostRuntime) -> Result<(), Fail> {
    let mut source = ten_bytes(rt.alloc(), 4, 2)?;
    assert_eq!(rt; source.read(&mut []), Ok(0));
    let answers = [Ok(4), Err(Failed), Ok(4), Ok(2), Ok(0)];
    let pieces = ["abcd", "", "efgh", "ij", ""];
    for (answer, piece) in answers.iter().zip(pieces) {
        assert!(rt; gives(&mut source, *answer, piece.as_bytes()), "{piece}");
    }
    Ok(())
}

const TEXT: &[u8; 29] = b"an even longer text than that";

// A sink of this room, in which the call of this number fails, behind the text: what it answered to nothing at all, whether it
// took the text, and what it has of it.
fn filled(
    alloc: Global,
    room: usize,
    fails: u32,
) -> Result<(Result<usize, Failed>, bool, MemSink), AllocError> {
    let mut sink = MemSink::new(alloc, room, 10, vec![in alloc; fails]?)?;
    let nothing = sink.write(b"");
    let is_whole = write_all(&mut sink, TEXT).is_ok();
    Ok((nothing, is_whole, sink))
}

#[test]
fn a_sink_keeps_what_it_took_before_it_failed(rt: HostRuntime) -> Result<(), Fail> {
    for (room, fails, written) in [
        (99, 2, 10),
        (99, 4, 29),
        (29, 9, 29),
        (28, 9, 28),
        (0, 9, 0),
    ] {
        let (nothing, is_whole, sink) = filled(rt.alloc(), room, fails)?;
        assert_eq!(rt;
            (nothing, is_whole),
            (Ok(0), written == 29),
            "with room for {room}"
        );
        assert_eq!(rt; sink.bytes(), &TEXT[..written]);
    }
    Ok(())
}

#[test]
fn a_status_goes_with_a_text_unless_writing_fails(rt: HostRuntime) -> Result<(), Fail> {
    for (room, status, written) in [
        (8, Status::InputRefused, "the text"),
        (7, Status::SinkFailed, "the tex"),
        (0, Status::SinkFailed, ""),
    ] {
        let mut sink = MemSink::new(rt.alloc(), room, 5, Vec::new(rt.alloc()))?;
        assert_eq!(rt;
            finish(&mut sink, Status::InputRefused, b"the text"),
            status
        );
        assert_eq!(rt; sink.bytes(), written.as_bytes());
    }
    Ok(())
}

// How many bytes are read of such a source, up to a limit; or why none are.
fn count_read(alloc: Global, source: &mut MemSource, limit: usize) -> Result<usize, ReadFault> {
    Ok(read_all(alloc, source, limit)?.len())
}

#[test]
fn reading_ends_one_byte_beyond_the_limit(rt: HostRuntime) -> Result<(), Fail> {
    for (limit, length) in [(11, 10), (10, 10), (9, 10), (5, 6), (0, 1)] {
        let mut source = ten_bytes(rt.alloc(), 3, 0)?;
        let read = read_all(rt.alloc(), &mut source, limit);
        let read = read.ok().ok_or("no bytes")?;
        assert_eq!(rt; read.as_slice(), &b"abcdefghij"[..length], "up to {limit}");
    }
    Ok(())
}

#[test]
fn reading_goes_on_behind_what_failed(rt: HostRuntime) -> Result<(), Fail> {
    let mut source = ten_bytes(rt.alloc(), 4, 2)?;
    let failed = count_read(rt.alloc(), &mut source, 99);
    let rest = count_read(rt.alloc(), &mut source, 99);
    assert_eq!(rt; (failed, rest), (Err(ReadFault::Failed), Ok(6)));
    Ok(())
}

#[test]
fn more_than_one_piece_is_read(rt: HostRuntime) -> Result<(), Fail> {
    let bytes = vec![in rt.alloc(); 7u8; 10_000]?;
    let mut source = StdSource::new(bytes.as_slice());
    let read = read_all(rt.alloc(), &mut source, usize::MAX);
    assert_eq!(rt; read.ok().ok_or("no bytes")?.as_slice(), bytes.as_slice());
    Ok(())
}

#[test]
fn a_writer_gets_all_bytes(rt: HostRuntime) {
    let mut written = Vec::new(rt.alloc());
    let mut sink = StdSink::new(&mut written);
    assert_eq!(rt; write_all(&mut sink, b"all of it"), Ok(()));
    assert_eq!(rt; written.as_slice(), b"all of it".as_slice());
}

#[test]
fn a_writer_is_written_to_until_it_is_full(rt: HostRuntime) {
    let mut room = [0; 5];
    let mut sink = StdSink::new(&mut room[..]);
    assert_eq!(rt; sink.write(b"too long"), Ok(5));
    assert_eq!(rt; sink.write(b"ng"), Err(Failed));
    assert_eq!(rt; sink.write(b""), Ok(0));
}

// A writer that takes what it is given and can't be flushed.
#[derive(Drop)]
struct Unflushed;

impl Write for Unflushed {
    fn write(&mut self, piece: &[u8]) -> io::Result<usize> {
        Ok(piece.len())
    }

    fn flush(&mut self) -> io::Result<()> {
        Err(ErrorKind::Other.into())
    }
}

#[test]
fn a_writer_that_can_t_be_flushed_is_at_fault(rt: HostRuntime) {
    let mut sink = StdSink::new(Unflushed);
    assert!(rt; sink.write(b"ab").is_err());
    assert!(rt; write_all(&mut sink, b"ab").is_err());
    assert!(rt; sink.write(b"").is_ok());
}

// A reader and a writer that signals interrupt so many times before each call comes through.
#[derive(Drop)]
struct Interrupted {
    times: u32,
}

impl Interrupted {
    fn pass(&mut self) -> io::Result<()> {
        if self.times > 0 {
            self.times -= 1;
            return Err(ErrorKind::Interrupted.into());
        }
        Ok(())
    }
}

impl Read for Interrupted {
    fn read(&mut self, _: &mut [u8]) -> io::Result<usize> {
        self.pass()?;
        Ok(0)
    }
}

impl Write for Interrupted {
    fn write(&mut self, piece: &[u8]) -> io::Result<usize> {
        self.pass()?;
        Ok(piece.len())
    }

    fn flush(&mut self) -> io::Result<()> {
        self.pass()
    }
}

#[test]
fn an_interrupted_call_is_tried_again(rt: HostRuntime) {
    for (times, read, written) in [
        (0, Ok(0), Ok(2)),
        (1, Ok(0), Ok(2)),
        (999, Ok(0), Ok(2)),
        (1000, Err(Failed), Err(Failed)),
    ] {
        let mut source = StdSource::new(Interrupted { times });
        assert_eq!(rt; source.read(&mut [0; 4]), read);
        let mut sink = StdSink::new(Interrupted { times });
        assert_eq!(rt; sink.write(b"ab"), written);
    }
}
