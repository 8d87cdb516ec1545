// What a judgement looks like, and what is printed for a file.
ghost use Rattle.std.specs.Prelude.{◌≡◌, Some, IfOk};
ghost use Rattle.std.specs.Fmt.{DisplaysOnOk};
ghost use Rattle.std.specs.String.{string_bytes};
ghost use Rattle.judging.specs.Judged.{shown};
ghost use Rattle.judging.specs.Printed.{nodes_text, line_text, lines_text, verdicts_text, named_text, text_of, TextTells};

use crate::{Finding, Judgement, Tables, Verdicts};
use recipe::Refusal;
use std::alloc::{AllocError, Global};
use std::fmt;

// Each node of a list, with a blank before it.
fn write_nodes<W: fmt::Write>(f: &mut fmt::Formatter<W>, nodes: &[u32]) -> fmt::Result
    ensures { DisplaysOnOk W.write_str_gives f.old result (Some (nodes_text nodes.now)) f.new }
{
    for node in nodes {
        write!(f, " {node}")?;
    }
    Ok(())
}

// What one rule comes to, as a line: with the trace, or how long it is.
fn write_line<W: fmt::Write>(
    f: &mut fmt::Formatter<W>,
    rule: &str,
    finding: &Finding,
) -> fmt::Result
    ensures { DisplaysOnOk W.write_str_gives f.old result (Some (line_text rule.now (shown finding.now))) f.new }
{
    let verdict = finding.report.verdict;
    let held = finding.report.held;
    write!(f, "{rule} {verdict} facts {held}")?;
    match &finding.trace {
        Ok(nodes) => {
            f.write_str(" trace")?;
            write_nodes(f, nodes)
        }
        Err(Refusal::LongTrace { length }) => write!(f, " long {length}"),
        Err(_) => Ok(()),
    }
}

// A line for each rule.
impl fmt::Display for Judgement {
    ghost output = { λ j. Some (lines_text (shown j.history) (shown j.stack)) };

    fn fmt<W: fmt::Write>(&self, f: &mut fmt::Formatter<W>) -> fmt::Result {
        write_line(f, "history", &self.history)?;
        f.write_str("\n")?;
        write_line(f, "stack", &self.stack)
    }
}

// A line for each rule, or the number by which users know the refusal.
impl fmt::Display for Verdicts {
    ghost output = { λ v. Some (verdicts_text v) };

    fn fmt<W: fmt::Write>(&self, f: &mut fmt::Formatter<W>) -> fmt::Result {
        match &self.judged {
            Ok(judgement) => write!(f, "{judgement}"),
            Err(refusal) => {
                let number = refusal.number();
                write!(f, "{number}")
            }
        }
    }
}

// What is printed for one of several files: its name on a line, and then its verdicts.
#[derive(Clone, Copy)]
pub struct Named<'a> {
    pub name: &'a str,
    pub verdicts: &'a Verdicts,
}

impl<'a> fmt::Display for Named<'a> {
    ghost output = { λ n. Some (named_text n.name.now (verdicts_text n.verdicts.now)) };

    fn fmt<W: fmt::Write>(&self, f: &mut fmt::Formatter<W>) -> fmt::Result {
        let Named { name, verdicts } = self;
        write!(f, "{name}\n{verdicts}")
    }
}

// What is printed for a file, as a text; fails only for want of memory, for the tables or for the text.
pub fn printed(heap: Global, file: &[u8]) -> Result<String, AllocError>
    ensures text { IfOk result (λ text. string_bytes text ≡ text_of file.now) }
    ensures tells { IfOk result (λ text. TextTells file.now (string_bytes text)) }
{
    let verdicts = Tables::new(heap)?.verdicts(file);
    verdicts.to_string(heap)
}
