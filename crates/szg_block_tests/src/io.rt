//! Devices, where the laws leave a choice: the calls in which a device for tests is interrupted or fails, the
//! number of bytes moved in a call, and the meaning of std's errors.
ghost use Rattle.std.specs.Prelude.{◌≤◌, None, false, IfOk};

use std::alloc::Global;
use std::io::{self, Error, ErrorKind, Read, Write};
use std::process::Abort;
use szg_io::{
    Bytes, Counters, Cut, Input, IoFault, Output, ReadAhead, Std, give_whole, take_whole,
};

const TEXT: &[u8] = b"rattles";

/// A reader and writer of std. Its calls return `Interrupted`, then one byte, then an error of another kind.
#[derive(Drop)]
struct Uneasy(u8);

impl Uneasy {
    fn answer(&mut self) -> io::Result<usize> {
        self.0 = self.0.saturating_add(1);
        match self.0 {
            1 => Err(Error::from(ErrorKind::Interrupted)),
            2 => Ok(1),
            _ => Err(Error::from(ErrorKind::BrokenPipe)),
        }
    }
}

/// Reading a whole chunk returns `want`.
fn check_take<R: Input>(
    rt: &impl Abort,
    input: &mut R,
    piece: &mut [u8],
    want: Result<usize, IoFault>,
) {
    assert_eq!(rt; take_whole(input, piece), want);
}

/// Writing a whole chunk returns `want`.
fn check_give<W: Output>(rt: &impl Abort, output: &mut W, piece: &[u8], want: Result<(), usize>) {
    assert_eq!(rt; give_whole(output, piece), want);
}

/// One call of `take` returns `want`.
fn check_taken_once<R: Input>(
    rt: &impl Abort,
    input: &mut R,
    piece: &mut [u8],
    want: Result<usize, IoFault>,
) {
    assert_eq!(rt; input.take(piece), want);
}

/// One call of `give` returns `want`.
fn check_given_once<W: Output>(
    rt: &impl Abort,
    output: &mut W,
    piece: &[u8],
    want: Result<usize, IoFault>,
) {
    assert_eq!(rt; output.give(piece), want);
}

fn check_bytes(rt: &impl Abort, found: &[u8], want: &[u8]) {
    assert_eq!(rt; found, want);
}

#[test]
fn pieces_of_one_byte_are_joined(rt: HostRuntime) {
    let mut input = Cut::new(Std::new(TEXT), 1, 3, 0);
    let mut piece = [0; 5];
    check_take(&rt, &mut input, &mut piece, Ok(5));
    check_bytes(&rt, &piece, b"rattl");
    check_bytes(&rt, *input.inner().inner(), b"es");
    let mut lent = &mut input;
    check_take(&rt, &mut lent, &mut piece, Ok(2));
    check_bytes(&rt, &piece[..2], b"es");
    check_take(&rt, &mut lent, &mut piece, Ok(0));
}

#[test]
fn a_thousand_interrupted_in_a_row_are_retried(rt: HostRuntime) {
    for (before, taken, given) in [
        (1000, Ok(2), Ok(())),
        (1001, Err(IoFault::Interrupted), Err(0)),
    ] {
        let mut input = Cut::new(Std::new(TEXT), 1, before, 0);
        check_take(&rt, &mut input, &mut [0; 2], taken);
        let mut output = Cut::new(Std::new(Vec::new(rt.alloc())), 1, before, 0);
        check_give(&rt, &mut output, &TEXT[..2], given);
    }
}

#[test]
fn a_reader_fails_at_the_call_that_was_set(rt: HostRuntime) {
    for fails_at in 1..=7 {
        let mut input = Cut::new(Std::new(TEXT), 1, 0, fails_at as u64);
        check_take(&rt, &mut input, &mut [0; 7], Err(IoFault::Failed));
        check_bytes(&rt, *input.inner().inner(), &TEXT[fails_at - 1..]);
    }
    let mut input = Cut::new(Std::new(TEXT), 1, 0, 8);
    check_take(&rt, &mut input, &mut [0; 7], Ok(7));
    check_taken_once(&rt, &mut input, &mut [0], Err(IoFault::Failed));
}

#[test]
fn a_writer_fails_at_the_call_that_was_set(rt: HostRuntime) {
    for fails_at in 1..=7 {
        let mut output = Cut::new(Std::new(Vec::new(rt.alloc())), 1, 0, fails_at as u64);
        check_give(&rt, &mut output, TEXT, Err(fails_at - 1));
        check_bytes(
            &rt,
            output.inner().inner().as_slice(),
            &TEXT[..fails_at - 1],
        );
    }
}

#[test]
fn a_writer_takes_pieces_of_any_length(rt: HostRuntime) {
    for most in [1, 3, 7] {
        let mut output = Cut::new(Std::new(Vec::new(rt.alloc())), most, 2, 0);
        let mut lent = &mut output;
        check_give(&rt, &mut lent, TEXT, Ok(()));
        check_bytes(&rt, output.inner().inner().as_slice(), TEXT);
    }
}

#[test]
fn a_writer_that_takes_nothing_has_failed(rt: HostRuntime) {
    let mut full = Cut::new(Std::new(Vec::new(rt.alloc())), 0, 0, 0);
    check_given_once(&rt, &mut full, TEXT, Ok(0));
    check_give(&rt, &mut full, TEXT, Err(0));
    check_give(&rt, &mut full, &[], Ok(()));
}

#[test]
fn the_errors_of_std_are_distinguished(rt: HostRuntime) {
    let mut input = Std::new(Uneasy(0));
    let mut output = Std::new(Uneasy(0));
    for answer in [Err(IoFault::Interrupted), Ok(1), Err(IoFault::Failed)] {
        check_taken_once(&rt, &mut input, &mut [0], answer);
        check_given_once(&rt, &mut output, TEXT, answer);
    }
}

impl Read for Uneasy {
    fn read(&mut self, buf: &mut [u8]) -> io::Result<usize> {
        Ok(self.answer()?.min(buf.len()))
    }
}

impl Write for Uneasy {
    fn write(&mut self, buf: &[u8]) -> io::Result<usize> {
        Ok(self.answer()?.min(buf.len()))
    }

    fn flush(&mut self) -> io::Result<()> {
        Ok(())
    }
}

/// A reader and writer of std that fails at its first call with this error of the system, and works from then on. It
/// counts its calls.
#[derive(Drop)]
struct Recovering {
    code: i32,
    calls: u64,
}

impl Recovering {
    /// Fails at the first call.
    fn fail_once(&mut self) -> io::Result<()> {
        self.calls = self.calls.saturating_add(1);
        if self.calls == 1 {
            return Err(Error::from_raw_os_error(self.code));
        }
        Ok(())
    }
}

impl Read for Recovering {
    fn read(&mut self, buf: &mut [u8]) -> io::Result<usize> {
        self.fail_once()?;
        buf.fill(7);
        Ok(buf.len())
    }
}

impl Write for Recovering {
    fn write(&mut self, buf: &[u8]) -> io::Result<usize> {
        self.fail_once()?;
        Ok(buf.len())
    }

    fn flush(&mut self) -> io::Result<()> {
        Ok(())
    }
}

fn fails_once(code: i32) -> Std<Recovering> {
    Std::new(Recovering { code, calls: 0 })
}

/// The wrapped reader or writer was called `calls` times.
fn check_calls(rt: &impl Abort, device: &Std<Recovering>, calls: u64) {
    assert!(rt;
        device.inner().calls == calls,
        "error {}",
        device.inner().code
    );
}

/// Errors of Linux that are no interruption: EIO, EAGAIN, ENOMEM, ENOSPC, EPIPE, ETIMEDOUT, EDQUOT.
const ERRORS: [i32; 7] = [5, 11, 12, 28, 32, 110, 122];

/// EINTR.
const INTERRUPTED: i32 = 4;

/// An error is returned by the call that met it, even if the next call would succeed.
#[test]
fn an_error_is_returned_at_its_call(rt: HostRuntime) {
    for code in ERRORS {
        let mut input = fails_once(code);
        let mut output = fails_once(code);
        for (calls, answer) in [(1, Err(IoFault::Failed)), (2, Ok(3))] {
            check_taken_once(&rt, &mut input, &mut [0; 3], answer);
            check_calls(&rt, &input, calls);
            check_given_once(&rt, &mut output, &[0; 3], answer);
            check_calls(&rt, &output, calls);
        }
    }
}

/// A whole chunk is not continued after an error, and is after an interruption.
#[test]
fn a_chunk_ends_at_an_error(rt: HostRuntime) {
    for code in ERRORS {
        let mut input = fails_once(code);
        check_take(&rt, &mut input, &mut [0; 3], Err(IoFault::Failed));
        check_calls(&rt, &input, 1);
        let mut output = fails_once(code);
        check_give(&rt, &mut output, &[0; 3], Err(0));
        check_calls(&rt, &output, 1);
    }
    let mut input = fails_once(INTERRUPTED);
    check_take(&rt, &mut input, &mut [0; 3], Ok(3));
    check_calls(&rt, &input, 2);
    let mut output = fails_once(INTERRUPTED);
    check_give(&rt, &mut output, &[0; 3], Ok(()));
    check_calls(&rt, &output, 2);
}

/// A reader and writer of std that moves at most three bytes at a call. It keeps the lengths of the chunks.
#[derive(Drop)]
struct Sparing {
    queried: Vec<usize>,
}

impl Sparing {
    /// Keeps the length of a chunk, and returns the number of bytes to be moved.
    fn ask(&mut self, size: usize) -> io::Result<usize>
        ensures { IfOk result (λ n. n ≤ size) }
    {
        self.queried.push(size)?;
        Ok(size.min(3))
    }
}

impl Read for Sparing {
    fn read(&mut self, buf: &mut [u8]) -> io::Result<usize> {
        self.ask(buf.len())
    }
}

impl Write for Sparing {
    fn write(&mut self, buf: &[u8]) -> io::Result<usize> {
        self.ask(buf.len())
    }

    fn flush(&mut self) -> io::Result<()> {
        Ok(())
    }
}

fn moves_three(alloc: Global) -> Std<Sparing> {
    Std::new(Sparing {
        queried: Vec::new(alloc),
    })
}

/// Chunks of these lengths were asked of the wrapped reader or writer.
fn check_requests(rt: &impl Abort, device: &Std<Sparing>, lengths: &[usize]) {
    assert!(rt; device.inner().queried.as_slice() == lengths);
}

/// Each call asks for all that is left of the chunk, and a device for tests passes on as much as it may.
#[test]
fn all_of_a_chunk_is_requested(rt: HostRuntime) {
    let mut input = moves_three(rt.alloc());
    check_take(&rt, &mut input, &mut [0; 7], Ok(7));
    check_requests(&rt, &input, &[7, 4, 1]);
    let mut output = moves_three(rt.alloc());
    check_give(&rt, &mut output, TEXT, Ok(()));
    check_requests(&rt, &output, &[7, 4, 1]);
    let mut cut = Cut::new(input, 5, 0, 0);
    check_taken_once(&rt, &mut cut, &mut [0; 7], Ok(3));
    check_requests(&rt, cut.inner(), &[7, 4, 1, 5]);
    let mut cut = Cut::new(output, 5, 0, 0);
    check_given_once(&rt, &mut cut, TEXT, Ok(3));
    check_requests(&rt, cut.inner(), &[7, 4, 1, 5]);
}

/// Expected bytes are read ahead, at most 65,536 at once, and no others. A chunk with room for all that is expected is
/// read directly.
#[test]
fn only_expected_bytes_are_read_ahead(rt: HostRuntime) {
    let mut device = moves_three(rt.alloc());
    let mut input = ReadAhead::new(rt.alloc(), &mut device);
    for (expected, size, taken) in [
        (None, 2, 2),
        (Some(5), 2, 2),
        (None, 7, 1),
        (None, 1, 1),
        (None, 4, 1),
        (None, 4, 3),
        (Some(6), 6, 3),
        (Some(100_000), 1, 1),
        (Some(2), 7, 2),
        (None, 1, 1),
        (None, 5, 3),
    ] {
        if let Some(bytes) = expected {
            input.expect(bytes);
        }
        check_taken_once(&rt, &mut input, &mut [0; 7][..size.min(7)], Ok(taken));
    }
    drop(input);
    check_requests(&rt, &device, &[2, 5, 2, 4, 6, 65536, 1, 5]);
}

/// What follows the expected bytes stays unread.
#[test]
fn bytes_after_the_expected_ones_stay(rt: HostRuntime) {
    let mut device = Std::new(TEXT);
    let mut input = ReadAhead::new(rt.alloc(), &mut device);
    let mut chunk = [0; 3];
    input.expect(5);
    for (count, want) in [(3, b"rat".as_slice()), (2, b"tl".as_slice())] {
        check_taken_once(&rt, &mut input, &mut chunk, Ok(count));
        check_bytes(&rt, &chunk[..count], want);
    }
    drop(input);
    check_bytes(&rt, *device.inner(), b"es");
}

/// A device as a user might define it: reading returns the same byte again and again, writing accepts all bytes and
/// keeps none. It does not specify its bytes.
#[derive(Drop)]
struct Same {
    byte: u8,
    counts: Counters,
}

impl Input for Same {
    ghost coming = { λ _. None };

    ghost calls = { λ s. s.counts.calls };

    ghost moved = { λ s. s.counts.moved.bytes };

    ghost failures = { λ s. s.counts.failures };

    ghost interrupted = { λ s. s.counts.interrupted };

    ghost may_fail = { λ _. false };

    fn take(&mut self, piece: &mut [u8]) -> Result<usize, IoFault> {
        piece.fill(self.byte);
        self.counts.count_take(Ok(piece.len()), piece);
        Ok(piece.len())
    }
}

impl Output for Same {
    ghost written = { λ _. None };

    ghost calls = { λ s. s.counts.calls };

    ghost moved = { λ s. s.counts.moved.bytes };

    ghost failures = { λ s. s.counts.failures };

    ghost interrupted = { λ s. s.counts.interrupted };

    fn give(&mut self, piece: &[u8]) -> Result<usize, IoFault> {
        self.counts.count_give(Ok(piece.len()), piece);
        Ok(piece.len())
    }
}

#[test]
fn a_device_of_ones_own_is_read_and_written(rt: HostRuntime) {
    let mut same = Same {
        byte: 7,
        counts: Counters::new(),
    };
    let mut piece = [0; 3];
    check_take(&rt, &mut same, &mut piece, Ok(3));
    check_bytes(&rt, &piece, &[7, 7, 7]);
    check_give(&rt, &mut same, TEXT, Ok(()));
    assert!(rt; same.counts.calls == 2 && same.counts.failures == 0);
}

#[test]
fn bytes_in_memory_are_read(rt: HostRuntime) {
    let mut input = Bytes::new(TEXT);
    let mut piece = [0; 4];
    check_take(&rt, &mut input, &mut piece, Ok(4));
    check_bytes(&rt, &piece, b"ratt");
    check_bytes(&rt, input.left(), b"les");
    let mut cut = Cut::new(input, 2, 0, 0);
    check_taken_once(&rt, &mut cut, &mut piece, Ok(2));
    check_bytes(&rt, cut.inner().left(), b"s");
    check_take(&rt, &mut cut, &mut piece, Ok(1));
    check_take(&rt, &mut cut, &mut piece, Ok(0));
}

/// A device that fails at its second call reads seven bytes in its first.
fn check_one_call<R: Input + Drop>(rt: &impl Abort, device: R) {
    let mut input = Cut::new(device, 7, 0, 2);
    let mut lent = &mut input;
    check_take(rt, &mut lent, &mut [0; 7], Ok(7));
    check_taken_once(rt, &mut lent, &mut [0], Err(IoFault::Failed));
}

#[test]
fn a_whole_piece_is_moved_at_once(rt: HostRuntime) {
    check_one_call(&rt, Std::new(TEXT));
    check_one_call(&rt, Bytes::new(TEXT));
    let mut output = Cut::new(Std::new(Vec::new(rt.alloc())), 7, 0, 2);
    let mut lent = &mut output;
    check_give(&rt, &mut lent, TEXT, Ok(()));
    check_given_once(&rt, &mut lent, TEXT, Err(IoFault::Failed));
}

/// The number of bytes moved in a call.
#[test]
fn pieces_are_as_long_as_they_may_be(rt: HostRuntime) {
    for size in [7, 9] {
        check_taken_once(&rt, &mut Bytes::new(TEXT), &mut [0; 9][..size], Ok(7));
        check_taken_once(&rt, &mut Std::new(TEXT), &mut [0; 9][..size], Ok(7));
    }
    let mut output = Std::new(Vec::new(rt.alloc()));
    check_given_once(&rt, &mut output, TEXT, Ok(7));
    check_taken_once(
        &rt,
        &mut Cut::new(Std::new(TEXT), 3, 0, 0),
        &mut [0; 7],
        Ok(3),
    );
    check_given_once(&rt, &mut Cut::new(output, 3, 0, 0), TEXT, Ok(3));
}
