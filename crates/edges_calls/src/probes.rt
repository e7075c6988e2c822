// The probe: a body is the reading, what was expected and the tolerance.
// What is printed is the refusal's number and place, the offset and the verdict.
use edges_print::Judgement;
use edges_text::text;
use probe::{Reading, Verdict};
use std::io;

fn verdict_text(verdict: Verdict) -> &'static str {
    match verdict {
        Verdict::Within => "within",
        Verdict::Ahead => "ahead",
        Verdict::Behind => "behind",
        Verdict::Unset => "unset",
    }
}

pub fn offset(rt: &impl Print, name: &[u8], body: &[u8]) -> io::Result<()> {
    let rest = text::after(body, b',');
    let answer = probe::probe(
        text::number(text::before(body, b','), 0),
        text::number(text::before(rest, b','), 0),
        text::number(text::after(rest, b','), 0),
    );
    let judgement = Judgement::of(&answer);
    rt.write_all(name)?;
    match answer {
        Ok(Reading { offset, verdict }) => {
            println!(rt; "\t{judgement} {offset} {}", verdict_text(verdict))
        }
        Err(_) => println!(rt; "\t{judgement} 0 none"),
    }
}
