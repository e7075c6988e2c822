// What is judged of a header line, a defaults line and a job line.
// Where fields begin and end, and whose field is taken, is in `table_fields`; what a judged line prints is in the crates above.
#![tactic(auto)]

ghost use Rattle.std.specs.Prelude.{◌≡◌};
ghost use Rattle.table.specs.Judged.{is_header, is_misshapen, empty_field, as_defaults_line, as_job_line, defaults_at, judged_defaults, judged_numbers, judged_job};

use table::{BadLine, Job, LONGEST_LINE, MOST_POINTS};
use table_fields::fields::{count_fields, field, pick};
use table_fields::numerals;

pub fn is_header(line: &[u8]) -> bool
    ensures { result ≡ is_header line.now }
{
    line == b"chain-jobs\t1".as_slice()
}

// "line over 4,096 bytes or not four fields"
fn is_misshapen(line: &[u8]) -> bool
    ensures { result ≡ is_misshapen line.now }
{
    LONGEST_LINE < line.len() || count_fields(line) != 4
}

// What each field is refused for.
const FIELDS: [BadLine; 4] = [
    BadLine::Formula,
    BadLine::Start,
    BadLine::Step,
    BadLine::Count,
];

// "the leftmost empty field is refused at its field number"
fn judge_empty(line: &[u8]) -> Result<(), BadLine>
    ensures { as_defaults_line result ≡ defaults_at (empty_field line.now) }
{
    for (i, bad) in FIELDS.iter().enumerate() {
        if field(line, i + 1).is_empty() {
            return Err(*bad);
        }
    }
    Ok(())
}

// "then start, step, count bad, place 2, 3, 4"
fn judge_numbers<'a>(start: &'a [u8], step: &'a [u8], count: &'a [u8]) -> Result<Job, BadLine>
    ensures { as_job_line result ≡ judged_numbers start.now step.now count.now }
{
    let start = numerals::number_up_to(start, u64::MAX).ok_or(BadLine::Start)?;
    let step = numerals::number_up_to(step, u64::MAX).ok_or(BadLine::Step)?;
    let count = numerals::number_up_to(count, MOST_POINTS as u64).ok_or(BadLine::Count)?;
    Ok(Job { start, step, count })
}

// "In the defaults line the leftmost empty field is refused at its field number, ahead of bad numbers"
pub fn judge_defaults(line: &[u8]) -> Result<(), BadLine>
    ensures { as_defaults_line result ≡ judged_defaults line.now }
{
    if is_misshapen(line) {
        return Err(BadLine::Misshapen);
    }
    judge_empty(line)?;
    judge_numbers(field(line, 2), field(line, 3), field(line, 4))?;
    Ok(())
}

// The job line with the defaults where its own fields are empty.
pub fn judge_job<'a>(line: &'a [u8], defaults: &'a [u8]) -> Result<Job, BadLine>
    ensures { as_job_line result ≡ judged_job line.now defaults.now }
{
    if is_misshapen(line) {
        return Err(BadLine::Misshapen);
    }
    let start = pick(line, defaults, 2);
    let step = pick(line, defaults, 3);
    let count = pick(line, defaults, 4);
    judge_numbers(start, step, count)
}
