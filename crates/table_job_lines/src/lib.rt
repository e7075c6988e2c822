// The lines of a job in a lent buffer: `no`, `job` and the points.
// Which of them a job prints is for `table_jobs` and `table_lines`; single numbers and bytes are written in `table_fields::writer`.
#![tactic(auto)]

ghost use Rattle.std.specs.Prelude.{◌∷◌, ◌++◌, ◌+◌, ◌*◌, ◌≤◌, length};
ghost use Rattle.table.specs.Decimal.{decimal};
ghost use Rattle.table.specs.Parts.{tab};
ghost use Rattle.table.specs.Lines.{three_numbers, no_line, job_line, point_line, point_lines};
ghost use Rattle.table_fields.specs.Writer.{HasRoom, Writes};
ghost use Rattle.table_fields.specs.Writing.{Wrote};

use table_fields::writer::Writer;

// A number behind a tab.
pub fn write_field(writer: &mut Writer<'_>, n: u64)
    requires { HasRoom writer.old 21 }
    ensures wrote { Writes writer.old (tab ∷ decimal n) writer.new }
    ensures upper_bound { writer.new.at ≤ writer.old.at + 21 }
{
    writer.byte(b'\t');
    writer.decimal(n);
}

// Three numbers, each behind a tab, and the end of the line.
fn write_numbers(writer: &mut Writer<'_>, a: u64, b: u64, c: u64)
    requires { HasRoom writer.old 64 }
    ensures wrote { Writes writer.old (three_numbers a b c) writer.new }
    ensures upper_bound { writer.new.at ≤ writer.old.at + 64 }
{
    write_field(writer, a);
    write_field(writer, b);
    write_field(writer, c);
    writer.byte(b'\n');
}

// A word and three numbers, from place 0 on.
fn write_line(out: &mut [u8], word: &[u8], a: u64, b: u64, c: u64) -> usize
    requires { length word.now + 64 ≤ length out.old }
    ensures wrote { Wrote out.old 0 (word.now ++ three_numbers a b c) result out.new }
    ensures upper_bound { result ≤ length word.now + 64 }
{
    let mut writer = Writer { out, at: 0 };
    writer.text(word);
    write_numbers(&mut writer, a, b, c);
    writer.at
}

// "`no`, job number, refusal, place", from place 0 on.
pub fn write_no_line(out: &mut [u8], n: u64, refusal: u64, place: u64) -> usize
    requires { 67 ≤ length out.old }
    ensures { Wrote out.old 0 (no_line n refusal place) result out.new }
{
    write_line(out, b"no", n, refusal, place)
}

// "`job`, its number from 1, rows, plan cost", from place 0 on.
pub fn write_job_line(out: &mut [u8], n: u64, rows: u64, cost: u64) -> usize
    requires { 67 ≤ length out.old }
    ensures wrote { Wrote out.old 0 (job_line n rows cost) result out.new }
    ensures upper_bound { result ≤ 67 }
{
    write_line(out, b"job", n, rows, cost)
}

// "its index and value"
fn write_point(writer: &mut Writer<'_>, index: u64, value: u64)
    requires { HasRoom writer.old 42 }
    ensures wrote { Writes writer.old (point_line index value) writer.new }
    ensures upper_bound { writer.new.at ≤ writer.old.at + 42 }
{
    writer.decimal(index);
    write_field(writer, value);
    writer.byte(b'\n');
}

// A line for each word of a table, from index 0 on.
// Kept: the buffer and its place come apart, since what `table_jobs` promises speaks of the lent buffer, of which a writer would hold a reference.
pub fn write_points(out: &mut [u8], at: usize, table: &[u64]) -> usize
    requires { at + 42 * length table.now ≤ length out.old }
    ensures { Wrote out.old at (point_lines 0 table.now) result out.new }
{
    let mut writer = Writer { out, at };
    for (i, value) in table.iter().enumerate() {
        write_point(&mut writer, i as u64, *value);
    }
    writer.at
}
