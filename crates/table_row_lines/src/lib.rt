// The line of a row in a lent buffer, for the row explainer: its number, span and cost, its reason in request Six's words, and its text.
// Which rows are printed, and what their reasons are, is for `table_rows`; `no` and `job` lines and points are in `table_job_lines`.
#![tactic(auto)]

ghost use Rattle.std.specs.Prelude.{◌≡◌, ◌∷◌, ◌++◌, ◌+◌, ◌≤◌, length};
ghost use Rattle.plan.specs.Measures.{row_length, longest_text};
ghost use Rattle.plan.specs.Row.{first_byte, end_byte, row_cost};
ghost use Rattle.reason.specs.Answer.{reason_number};
ghost use Rattle.reason.specs.Wording.{reason_text};
ghost use Rattle.table.specs.Decimal.{decimal};
ghost use Rattle.table.specs.Parts.{tab};
ghost use Rattle.table.specs.Lines.{row_line};
ghost use Rattle.table_fields.specs.Writer.{HasRoom, Writes};

use plan::SPAN_START;
use reason::Reason;
use table_fields::writer::Writer;
use table_job_lines::write_field;

// The words of a reason.
#[tactic(auto, unfolding(reason::specs::Wording::reason_text))]
fn words(reason: Reason) -> &'static [u8]
    ensures { result.now ≡ reason_text (reason_number reason) }
{
    match reason {
        Reason::OperandStays => b"an operand is itself of kinds 3 to 8",
        Reason::LengthsAddOver => b"lengths add over 16",
        Reason::LengthTimesOver => b"length times n over 16",
        Reason::AgainstProduct => b"sum chain or constant against product chain",
        Reason::TwoProducts => b"two product chains under + or -",
        Reason::ExponentNeither => b"exponent of a raise neither constant nor sum chain",
        Reason::WouldFold => b"01 would have folded it",
    }
}

// A text behind a tab.
fn write_text(writer: &mut Writer<'_>, text: &[u8])
    requires { HasRoom writer.old (1 + length text.now) }
    ensures { Writes writer.old (tab ∷ text.now) writer.new }
{
    writer.byte(b'\t');
    writer.text(text);
}

// `row`, and a row's number, its span and its cost.
fn write_numbers(writer: &mut Writer<'_>, number: u64, first: u64, end: u64, cost: u64)
    requires { HasRoom writer.old 87 }
    ensures wrote { Writes writer.old
        (114 ∷ 111 ∷ 119 ∷ tab ∷ decimal number ++ tab ∷ decimal first ++ tab ∷ decimal end ++ tab ∷ decimal cost) writer.new }
    ensures upper_bound { writer.new.at ≤ writer.old.at + 87 }
{
    writer.text(b"row");
    write_field(writer, number);
    write_field(writer, first);
    write_field(writer, end);
    write_field(writer, cost);
}

// The line of a row whose text stands in the formula.
pub fn write_row_line(
    writer: &mut Writer<'_>,
    formula: &[u8],
    number: u64,
    row: &[u64],
    cost: u64,
    reason: Reason,
)
    requires row_len { length row.now ≡ row_length }
    requires row_bound { first_byte row.now ≤ end_byte row.now }
    requires row_in_bounds { end_byte row.now ≤ length formula.now }
    requires row_bound_2 { end_byte row.now ≤ longest_text }
    requires cost_value { cost ≡ row_cost row.now }
    requires room { HasRoom writer.old 1164 }
    ensures wrote { Writes writer.old (row_line formula.now number row.now (reason_number reason)) writer.new }
    ensures upper_bound { writer.new.at ≤ writer.old.at + 1164 }
{
    let first = row[SPAN_START];
    let end = row[SPAN_START + 1];
    write_numbers(writer, number, first, end, cost);
    write_text(writer, words(reason));
    write_text(writer, &formula[first as usize..end as usize]);
    writer.byte(b'\n');
}
