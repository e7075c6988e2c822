// Fields of a line of a job file: where they begin and end, how many there are, and whose field is taken.
// What is judged of a line is in `table_line_checks`; what a line prints, and how lines are found in the input, is in the crates above.
ghost use Rattle.std.specs.Prelude.{◌≡◌, ◌+◌, ◌≤◌, length, drop};
ghost use Rattle.table.specs.Parts.{before, field, field_count, picked};

// The place of the first such byte at or after a place, or the length.
pub fn find(text: &[u8], from: usize, byte: u8) -> usize
    requires { from ≤ length text.now }
    ensures { result ≡ from + length (before byte (drop from text.now)) }
{
    let rest = &text[from..];
    from + rest.iter().position(|b| *b == byte).unwrap_or(rest.len())
}

// Field n of a line, counted from 1.
pub fn field<'a>(line: &'a [u8], n: usize) -> &'a [u8]
    requires { 1 ≤ n }
    ensures { result.now ≡ field n line.now }
{
    line.split(|b| *b == b'\t').nth(n - 1).unwrap_or(&[])
}

// "the default line's where the job's is empty"
pub fn pick<'a>(job: &'a [u8], defaults: &'a [u8], n: usize) -> &'a [u8]
    requires { 1 ≤ n }
    ensures { result.now ≡ picked n job.now defaults.now }
{
    let own = field(job, n);
    if own.is_empty() {
        field(defaults, n)
    } else {
        own
    }
}

// How many fields a line has.
pub fn count_fields(line: &[u8]) -> usize
    ensures { result ≡ field_count line.now }
{
    1 + line.iter().filter(|b| **b == b'\t').count()
}
