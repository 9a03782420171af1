// Pools two labs' sheets (document 02, point 11). `pool FIRST SECOND` reads two files and writes their
// pooled sheet to standard output. Where there is none it writes nothing there, and a line on standard
// error says why.

#![tactic(auto)]

ghost use Rattle.std.specs.Prelude.{◌≡◌, ◌≤◌, IfOk, length, take, drop};
ghost use Rattle.std.specs.Counts.{IsPrefixLen};
ghost use Rattle.written.specs.Rows.{RowWritten};
ghost use Rattle.sheet_format.specs.Meaning.{longest_sheet};
ghost use Rattle.streams.specs.Inner.Streams.{ReadInto};
ghost use Rattle.pool.specs.Inner.{line_bytes};
ghost use Rattle.pool.specs.Printed.{refusal_line, Printed};

use sheet::READ_ROOM;
use sheet_fields::{LF, SPACE};
use std::env::{Env, FillError};
use std::fs::File;
use std::io;
use std::io::Write;
use std::rt::Files;
use writing::Pen;

// No pooled sheet has more bytes.
const ROOM: usize = 11626;

// No line of a refusal has more bytes.
const LINE: usize = 77;

// The bytes of `pool: cannot read `, behind which the file's name stands.
const CANNOT_READ: usize = 18;

// No file's name has more bytes.
const PATH_MAX: usize = 4096;

// The system's numbers for an argument that is missing, for a name that is too long, and for one
// that is no text.
const EINVAL: i32 = 22;

const ENAMETOOLONG: i32 = 36;

const EILSEQ: i32 = 84;

// How many bytes go to standard output, and how many to standard error.
#[derive(Drop)]
struct Told {
    printed: usize,
    said: usize,
}

// `pool: refused 2 8 9`
fn put_refusal(sheet: u64, number: u64, line: u64, out: &mut [u8]) -> usize
    requires { line_bytes ≤ length out.old }
    ensures { RowWritten out.old 0 (refusal_line sheet number line) out.new result }
{
    let mut pen = Pen::new(out);
    pen.put_field(b"pool: refused", SPACE);
    pen.put_number(sheet, SPACE);
    pen.put_number(number, SPACE);
    pen.put_number(line, LF);
    pen.at
}

// Pools two texts: the sheet, or the line of a refusal. The bytes behind what is told stay as they
// were. The parameters are those of `pooling::pool_sheets`, which is offered, and the line's buffer.
fn tell(first: &[u8], second: &[u8], out: &mut [u8], line: &mut [u8]) -> Told
    requires longest_sheet_in_bounds { longest_sheet ≤ length out.old }
    requires line_bytes_in_bounds { line_bytes ≤ length line.old }
    ensures printed { Printed first.now second.now (take result.printed out.new) (take result.said line.new) }
    ensures prefix_len { IsPrefixLen result.printed out.new }
    ensures prefix_len_2 { IsPrefixLen result.said line.new }
    ensures out_unchanged { drop result.printed out.new ≡ drop result.printed out.old }
    ensures line_unchanged { drop result.said line.new ≡ drop result.said line.old }
{
    match pooling::pool_sheets(first, second, out) {
        Ok(size) => Told {
            printed: size,
            said: 0,
        },
        Err(no) => {
            let number = no.refusal.number();
            let said = put_refusal(no.sheet, number, no.line, line);
            Told { printed: 0, said }
        }
    }
}

fn print_pooled<O: Write, E: Write>(first: &[u8], second: &[u8], output: &mut O, errors: &mut E) {
    let mut out = [0u8; ROOM];
    let mut line = [0u8; LINE];
    let told = tell(first, second, &mut out, &mut line);
    let printed = told.printed;
    let said = told.said;
    let written = streams::write_whole(output, &out[..printed]);
    if let Some(error) = written.failure {
        streams::fail(errors, b"pool: the sheet is cut off", &error);
    }
    streams::write_whole(errors, &line[..said]);
}

// Puts argument i to the start of `out`, and answers how many bytes it has, or why it is not there.
fn put_argument<R: Env>(rt: &R, i: usize, out: &mut [u8]) -> io::Result<usize>
    ensures { IfOk result (λ n. IsPrefixLen n out.new) }
{
    match rt.arg(i, out) {
        Ok(n) => Ok(n),
        Err(FillError::NotPresent) => Err(io::Error::from_raw_os_error(EINVAL)),
        Err(FillError::TooLong) => Err(io::Error::from_raw_os_error(ENAMETOOLONG)),
    }
}

// Opens the file of this name. A name is text in UTF-8 here.
fn open<R: Files>(rt: &R, name: &[u8]) -> io::Result<R::File> {
    match str::from_utf8(name) {
        Ok(path) => File::open(rt, path),
        Err(_) => Err(io::Error::from_raw_os_error(EILSEQ)),
    }
}

// Reads all of the file of this name, or as much of it as fits.
fn read_named<R: Files>(rt: &R, name: &[u8], sheet: &mut [u8]) -> io::Result<usize>
    ensures { ReadInto sheet.new result }
{
    let mut file = open(rt, name)?;
    streams::read_whole(&mut file, sheet)
}

// Reads the file that argument i names, or says why it cannot.
fn read_argument<R: Env + Files, E: Write>(
    rt: &R,
    i: usize,
    sheet: &mut [u8],
    errors: &mut E,
) -> io::Result<usize>
    ensures { ReadInto sheet.new result }
{
    let mut line = [0u8; CANNOT_READ + PATH_MAX];
    written::put(b"pool: cannot read ", &mut line, 0);
    let end = match put_argument(rt, i, &mut line[CANNOT_READ..]) {
        Ok(n) => CANNOT_READ + n,
        Err(error) => {
            streams::fail(errors, b"pool: cannot read a name", &error);
            return Err(error);
        }
    };
    let read = read_named(rt, &line[CANNOT_READ..end], sheet);
    if let Err(error) = &read {
        streams::fail(errors, &line[..end], error);
    }
    read
}

// Is there an argument i?
fn is_given<R: Env>(rt: &R, i: usize) -> bool {
    !matches!(rt.arg(i, &mut []), Err(FillError::NotPresent))
}

fn main(rt: HostRuntime) {
    let mut output = rt.stdout();
    let mut errors = rt.stderr();
    if !is_given(&rt, 2) || is_given(&rt, 3) {
        streams::write_whole(&mut errors, b"usage: pool FIRST SECOND\n");
        return;
    }
    let mut first = [0u8; READ_ROOM];
    let mut second = [0u8; READ_ROOM];
    let one = read_argument(&rt, 1, &mut first, &mut errors);
    let Ok(n) = one else {
        return;
    };
    let two = read_argument(&rt, 2, &mut second, &mut errors);
    let Ok(m) = two else {
        return;
    };
    print_pooled(&first[..n], &second[..m], &mut output, &mut errors);
}
