// Prints the report of the sheet on standard input (document 01, "Report and portal"). Where the
// input fails nothing is printed, and where the output fails nothing behind the failure is.

#![tactic(auto)]

use report_facts::Source;
use report_scores::LIST_ROOM;
use report_writer::{start, steps};
use sheet::READ_ROOM;
use std::io::Write;
use tables::TABLE;

// The bytes of a large part of the report.
const PART: usize = 65536;

// Prints the report of the sheet, in large parts, as far as the output takes them.
fn print_report<O: Write, E: Write>(sheet: &[u8], output: &mut O, errors: &mut E) {
    let mut opening = [0u64; TABLE];
    let mut lockout = [0u64; TABLE];
    let mut list = [0u64; LIST_ROOM];
    let mut out = [0u8; PART];
    let report = start::begin(sheet, &mut opening, &mut lockout);
    let source = Source {
        sheet,
        facts: &report.facts,
        opening: &opening,
        lockout: &lockout,
    };
    let mut cursor = report.cursor;
    // No index: a cursor tells where the report goes on.
    while steps::unfinished(cursor) {
        let next = steps::fill(source, cursor, &mut list, &mut out);
        let told = streams::write_whole(output, &out[..next.at]);
        if let Some(error) = told.failure {
            streams::fail(errors, b"report: the report is cut off", &error);
            return;
        }
        cursor = next.cursor;
    }
}

fn main(rt: HostRuntime) {
    let mut input = rt.stdin();
    let mut output = rt.stdout();
    let mut errors = rt.stderr();
    let mut sheet = [0u8; READ_ROOM];
    match streams::read_whole(&mut input, &mut sheet) {
        Ok(n) => print_report(&sheet[..n], &mut output, &mut errors),
        Err(error) => streams::fail(&mut errors, b"report: cannot read standard input", &error),
    }
}
