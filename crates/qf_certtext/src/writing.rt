//! Certificates as text.

ghost use Rattle.std.specs.Prelude.{◌≡◌, ◌∷◌, [], ◌++◌, IfOk, OnOk, map};
ghost use Rattle.std.specs.List.{flat_map};
ghost use Rattle.std.specs.Fmt.{decimal, signed_decimal};
ghost use Rattle.qf_tree.specs.Lines.{node_lines, step_line};
ghost use Rattle.qf_tree.specs.declared.line.Line.TheVariants as line;
ghost use Rattle.qf_certtext.specs.Spelling.{row_word, bound_parts, line_bytes, bytes_of_lines, spelling, value_text, value_texts, stated_bytes};

use qf_base::{Bound, List, NoMemory, RowName};
use qf_lin::Step;
use qf_tree::{Answer, Cert, Line, Node};
use std::alloc::Global;

// The letter of a row's name, and its number.
fn row_parts(row: RowName) -> (&'static str, u32)
    ensures { result.0.now ++ decimal result.1 ≡ row_word row }
{
    match row {
        RowName::Start(number) => ("r", number),
        RowName::Inserted(number) => ("i", number),
    }
}

fn add_split(
    alloc: Global,
    text: &mut List<u8>,
    param: u32,
    cut: i64,
    row: RowName,
) -> Result<(), NoMemory>
    ensures { OnOk result (text.new ≡ text.old ++ line_bytes (line.Split param cut row)) }
{
    let (letter, number) = row_parts(row);
    let written = format!(in alloc; "split p{param} {cut} {letter}{number}\n")?;
    text.extend(written.as_bytes())
}

fn add_refuted(alloc: Global, text: &mut List<u8>, row: RowName) -> Result<(), NoMemory>
    ensures { OnOk result (text.new ≡ text.old ++ line_bytes (line.Refuted row)) }
{
    let (letter, number) = row_parts(row);
    let written = format!(in alloc; "refuted {letter}{number}\n")?;
    text.extend(written.as_bytes())
}

// The word for a bound's side, and its number.
fn bound_parts(bound: Bound) -> (&'static str, i64)
    ensures { (result.0.now, result.1) ≡ bound_parts bound }
{
    match bound {
        Bound::Low(least) => ("ge", least),
        Bound::High(most) => ("le", most),
    }
}

fn add_tight(
    alloc: Global,
    text: &mut List<u8>,
    inequality: u32,
    var: u32,
    bound: Bound,
) -> Result<(), NoMemory>
    ensures { OnOk result (text.new ≡ text.old ++ line_bytes (line.Tight inequality var bound)) }
{
    let (side, end) = bound_parts(bound);
    let written = format!(in alloc; "{side} {inequality} {var} {end}\n")?;
    text.extend(written.as_bytes())
}

fn add_case(alloc: Global, text: &mut List<u8>, var: u32) -> Result<(), NoMemory>
    ensures { OnOk result (text.new ≡ text.old ++ line_bytes (line.Case var)) }
{
    let written = format!(in alloc; "case {var}\n")?;
    text.extend(written.as_bytes())
}

fn add_value(alloc: Global, text: &mut List<u8>, value: i64) -> Result<(), NoMemory>
    ensures { OnOk result (text.new ≡ text.old ++ value_text value) }
{
    let written = format!(in alloc; " {value}")?;
    text.extend(written.as_bytes())
}

// A space and the numeral of each value.
fn add_values(alloc: Global, text: &mut List<u8>, values: &[i64]) -> Result<(), NoMemory>
    ensures { OnOk result (text.new ≡ text.old ++ value_texts values.now) }
{
    for value in values {
        add_value(alloc, text, *value)?;
    }
    Ok(())
}

// The words before the values, the values, and the line feed.
fn add_stated(
    alloc: Global,
    text: &mut List<u8>,
    words: &[u8],
    values: &[i64],
) -> Result<(), NoMemory>
    ensures { OnOk result (text.new ≡ text.old ++ stated_bytes words.now values.now) }
{
    text.extend(words)?;
    add_values(alloc, text, values)?;
    text.push(b'\n')
}

#[tactic(auto, using(crate::proofs::Stated::repair_stated, crate::proofs::Stated::best_stated))]
fn add_answer(alloc: Global, text: &mut List<u8>, answer: &Answer) -> Result<(), NoMemory>
    ensures { OnOk result (text.new ≡ text.old ++ line_bytes (line.Answer answer.now)) }
{
    match answer {
        Answer::Repair(point) => add_stated(alloc, text, b"answer repair", point.as_slice()),
        Answer::Nothing => text.extend(b"answer none\n"),
        Answer::Budget => text.extend(b"answer budget\n"),
        Answer::Best(point) => add_stated(alloc, text, b"answer best", point.as_slice()),
    }
}

fn add_line(alloc: Global, text: &mut List<u8>, line: &Line) -> Result<(), NoMemory>
    ensures { OnOk result (text.new ≡ text.old ++ line_bytes line.now) }
{
    match line {
        Line::Head => text.extend(b"qfix-cert 1\n"),
        Line::Answer(answer) => add_answer(alloc, text, answer),
        Line::Split { param, cut, row } => add_split(alloc, text, *param, *cut, *row),
        Line::Refuted { row } => add_refuted(alloc, text, *row),
        Line::Tight {
            inequality,
            var,
            bound,
        } => add_tight(alloc, text, *inequality, *var, *bound),
        Line::Empty => text.extend(b"empty\n"),
        Line::Case { var } => add_case(alloc, text, *var),
        Line::Dear => text.extend(b"dear\n"),
        Line::Open => text.extend(b"open\n"),
        Line::End => text.extend(b"end\n"),
    }
}

fn add_step(alloc: Global, text: &mut List<u8>, step: &Step) -> Result<(), NoMemory>
    ensures { OnOk result (text.new ≡ text.old ++ line_bytes (step_line step.now)) }
{
    match step {
        Step::Tight {
            inequality,
            var,
            bound,
        } => add_tight(alloc, text, *inequality, *var, *bound),
        Step::Empty => text.extend(b"empty\n"),
        Step::Case { var } => add_case(alloc, text, *var),
    }
}

fn add_steps(alloc: Global, text: &mut List<u8>, steps: &[Step]) -> Result<(), NoMemory>
    ensures { OnOk result (text.new ≡ text.old ++ bytes_of_lines (map step_line steps.now)) }
{
    for step in steps {
        add_step(alloc, text, step)?;
    }
    Ok(())
}

fn add_node(alloc: Global, text: &mut List<u8>, node: &Node) -> Result<(), NoMemory>
    ensures { OnOk result (text.new ≡ text.old ++ bytes_of_lines (node_lines node.now)) }
{
    match node {
        Node::Split { param, cut, row } => add_split(alloc, text, *param, *cut, *row),
        Node::Refuted { row, steps } => {
            add_refuted(alloc, text, *row)?;
            add_steps(alloc, text, steps.as_slice())
        }
        Node::Dear => text.extend(b"dear\n"),
        Node::Open => text.extend(b"open\n"),
    }
}

fn add_nodes(alloc: Global, text: &mut List<u8>, nodes: &[Node]) -> Result<(), NoMemory>
    ensures { OnOk result (text.new ≡ text.old ++ bytes_of_lines (flat_map node_lines nodes.now)) }
{
    for node in nodes {
        add_node(alloc, text, node)?;
    }
    Ok(())
}

/// The spelling of a line, with its line feed.
pub fn write_line(alloc: Global, line: &Line) -> Result<List<u8>, NoMemory>
    ensures { IfOk result (λ bytes. bytes ≡ line_bytes line.now) }
{
    let mut text = List::new(alloc);
    add_line(alloc, &mut text, line)?;
    Ok(text)
}

/// The one text of a certificate: its lines in their order.
pub fn write(alloc: Global, cert: &Cert) -> Result<List<u8>, NoMemory>
    ensures { IfOk result (λ bytes. bytes ≡ spelling cert.now) }
{
    let mut text = List::new(alloc);
    text.extend(b"qfix-cert 1\n")?;
    add_answer(alloc, &mut text, &cert.answer)?;
    add_nodes(alloc, &mut text, cert.tree.nodes.as_slice())?;
    text.extend(b"end\n")?;
    Ok(text)
}
