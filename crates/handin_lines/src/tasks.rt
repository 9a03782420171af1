// What a hand-in line asks of the register.
ghost use Rattle.handin_lines.specs.Inner.Lines.{line_said};
ghost use Rattle.handin_lines.specs.Inner.Tasks.{CanHandOver, HandsOver, TaskOfLine};

use super::{lines, sets};
use handin_format::AttemptRead;
use lines::LineRead;
use records::Task;
use setup::Setup;
use sheet_lines::item_keys;
use sheet_rows::ItemKeys;

// The task of a hand-in: its sets are marked.
fn hand_over(s: Setup, l: &[u8], attempt: AttemptRead, start: usize, keys: &ItemKeys) -> Task
    requires { CanHandOver l.now (line_said (LineRead.Attempt attempt start)) }
    ensures { HandsOver keys.now.low keys.now.high keys.now.count s l.now (line_said (LineRead.Attempt attempt start)) result }
{
    let size = attempt.count;
    let mut handed = [0u64; sets::MAX_HANDED];
    sets::put_sets(l, start, keys, &mut handed);
    records::attempt(
        s,
        attempt.student,
        attempt.target as u64,
        attempt.loss,
        &handed[..size],
    )
}

// The task of a line: to refuse with the sheet's number, or with the line's; else the call that it says.
pub fn task_of(sheet: &[u8], line: &[u8]) -> Task
    ensures { TaskOfLine sheet.now line.now result }
{
    let s = match sheet::read_sheet(sheet) {
        Ok(setup) => setup,
        Err(refused) => return Task::Refuse(refused.refusal.number()),
    };
    let found = item_keys::keys_of(sheet, s.count);
    match lines::check_line(line, &found.keys) {
        Ok(LineRead::Withdrawal(student)) => Task::Withdraw(student),
        Ok(LineRead::Attempt(attempt, start)) => hand_over(s, line, attempt, start, &found.keys),
        Err(no) => Task::Refuse(no.refusal.number()),
    }
}
