// Reading all of an input and writing all of some bytes, by as many calls of the stream's `read`
// and `write` as it takes, and telling where one fails, and why.

#![tactic(auto)]

ghost use Rattle.std.specs.Prelude.{◌≡◌, ◌<◌, ◌≤◌, IfNone, IsSome, OnErr, OnOk, length, take};
ghost use Rattle.std.specs.Io.KnownBytes.{Appends};
ghost use Rattle.streams.specs.Inner.Streams.{moved_by, MovedOn, TookFrom, PutTo, ReadInto, GivenBy, Grew};

use std::io;
use std::io::{ErrorKind, Read, Write};

// What all writing came to. No Result: how many bytes are out is told of a failure too.
#[derive(Drop)]
pub struct Output {
    // How many bytes are out.
    pub written: usize,
    // Why no more are, where not all are out.
    pub failure: Option<io::Error>,
}

// What one call of `read` or `write` did. A failure is no case of it: it is the Err beside these.
enum Moved {
    // How many bytes: at least one, so that each such call brings a loop nearer to its end.
    Bytes(usize),
    // An answer of 0: a reader's end, or a writer that takes no more. To ask again would be of no use.
    Nothing,
    // A signal came in between, before any byte was moved, so that the call may be made again.
    Interrupted,
}

// What a call did, by its answer.
fn moved_by(answer: io::Result<usize>) -> io::Result<Moved>
    ensures { result ≡ moved_by answer }
{
    match answer {
        Ok(0) => Ok(Moved::Nothing),
        Ok(n) => Ok(Moved::Bytes(n)),
        Err(error) => {
            if error.kind() != ErrorKind::Interrupted {
                return Err(error);
            }
            Ok(Moved::Interrupted)
        }
    }
}

// One read into the rest of a buffer.
fn read_once<R: Read>(reader: &mut R, rest: &mut [u8]) -> io::Result<Moved>
    ensures moved { MovedOn (length rest.old) result }
    ensures bytes { TookFrom (R.remaining reader.old) (R.remaining reader.new) rest.new result }
{
    let answer = reader.read(rest);
    moved_by(answer)
}

// One write of the rest of some bytes.
fn write_once<W: Write>(writer: &mut W, rest: &[u8]) -> io::Result<Moved>
    ensures moved { MovedOn (length rest.now) result }
    ensures bytes { PutTo (W.contents writer.old) (W.contents writer.new) rest.now result }
{
    let answer = writer.write(rest);
    moved_by(answer)
}

// Reads until the input ends, buf is full, or a read fails: how much of the input was read. Only an
// answer of 0 is the end, and of a failed read nobody knows how the input goes on.
pub fn read_whole<R: Read>(reader: &mut R, buf: &mut [u8]) -> io::Result<usize>
    ensures read { ReadInto buf.new result }
    ensures bytes { GivenBy (R.remaining reader.old) (R.remaining reader.new) buf.new result }
{
    let mut done = 0;
    // How often an interrupted read may still be made again: more than any run uses up, and a
    // bound, since a loop has to be seen to end.
    let mut asks = u64::MAX;
    while done < buf.len() {
        match read_once(reader, &mut buf[done..])? {
            Moved::Bytes(n) => done += n,
            Moved::Nothing => return Ok(done),
            Moved::Interrupted => {
                if asks == 0 {
                    return Err(io::Error::from(ErrorKind::Interrupted));
                }
                asks -= 1;
            }
        }
    }
    Ok(done)
}

// Writes bytes until all are out or a write fails or takes nothing. `done`, which is 0 before, tells how
// many are out then.
fn write_on<W: Write>(writer: &mut W, bytes: &[u8], done: &mut usize) -> io::Result<()>
    requires { done.old ≡ 0 }
    ensures written { done.new ≤ length bytes.now }
    ensures bytes { Appends (W.contents writer.old) (W.contents writer.new) (take done.new bytes.now) }
    ensures whole { OnOk result (done.new ≡ length bytes.now) }
    ensures short { OnErr result (done.new < length bytes.now) }
{
    // How often an interrupted write may still be made again: more than any run uses up, and a
    // bound, since a loop has to be seen to end.
    let mut asks = u64::MAX;
    while *done < bytes.len() {
        match write_once(writer, &bytes[*done..])? {
            Moved::Bytes(n) => *done += n,
            Moved::Nothing => return Err(io::Error::from(ErrorKind::WriteZero)),
            Moved::Interrupted => {
                if asks == 0 {
                    return Err(io::Error::from(ErrorKind::Interrupted));
                }
                asks -= 1;
            }
        }
    }
    Ok(())
}

// Writes bytes until all are out or a write fails or takes nothing, and answers how many are out.
pub fn write_whole<W: Write>(writer: &mut W, bytes: &[u8]) -> Output
    ensures written { result.written ≤ length bytes.now }
    ensures bytes { Appends (W.contents writer.old) (W.contents writer.new) (take result.written bytes.now) }
    ensures whole { IfNone result.failure (result.written ≡ length bytes.now) }
    ensures short { IsSome result.failure → result.written < length bytes.now }
{
    let mut written = 0;
    let failure = write_on(writer, bytes, &mut written).err();
    Output { written, failure }
}

// No error's text has more bytes: the system's has up to 255, and std's number stands behind them.
const REASON: usize = 320;

// How many bytes at the start are the system's words for an error: std puts the error's number
// behind them, and what is not written yet is 0.
fn words(text: &[u8]) -> usize
    ensures { result ≤ length text.now }
{
    for (i, byte) in text.iter().enumerate() {
        if *byte == 0 || text[i..].starts_with(b" (os error ") {
            return i;
        }
    }
    text.len()
}

// Writes a line: what failed, as the caller names it, a colon and the reason. Where that fails too,
// there is nobody left to tell.
pub fn fail<W: Write>(writer: &mut W, what: &[u8], error: &io::Error)
    ensures { Grew (W.contents writer.old) (W.contents writer.new) }
{
    let mut text = [0u8; REASON];
    let mut rest: &mut [u8] = &mut text;
    let _ = write!(rest, "{error}");
    let n = words(&text);
    write_whole(writer, what);
    write_whole(writer, b": ");
    write_whole(writer, &text[..n]);
    write_whole(writer, b"\n");
}
