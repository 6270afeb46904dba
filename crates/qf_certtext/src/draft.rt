//! A certificate as far as its lines have come.

ghost use Rattle.std.specs.Prelude.{◌≡◌, ◌<◌, ◌+◌, ◌^◌, ◌++◌, ◌∷◌, [], IfOk};
ghost use Rattle.qf_certtext.specs.Drafts.{with_node, after_trees, after_empty, after_steps, after_head, at_start, draft_after};
ghost use Rattle.qf_certtext.specs.Room.{HasRoom};

use qf_base::{List, NoMemory, RowName};
use qf_lin::Step;
use qf_tree::{Answer, Cert, Line, Node, Tree};
use std::alloc::Global;

/// What the lines so far say, and which may stand next.
#[derive(Drop)]
pub enum Draft {
    /// Nothing: the head comes.
    Head,
    /// The answer comes.
    Answer,
    /// So many trees are still to come, and then the end.
    Trees {
        answer: Answer,
        nodes: List<Node>,
        trees: u64,
    },
    /// So many refutations are still to come for the row, and then so many trees.
    Steps {
        answer: Answer,
        nodes: List<Node>,
        trees: u64,
        row: RowName,
        steps: List<Step>,
        refutations: u64,
    },
    /// The end was there.
    Whole(Cert),
}

fn with_node(
    answer: Answer,
    nodes: List<Node>,
    trees: u64,
    node: Node,
    more: u64,
) -> Result<Option<Draft>, NoMemory>
    requires { trees + more < 2 ^ 64 }
    ensures { IfOk result (λ draft. draft ≡ with_node answer nodes trees node more) }
{
    if trees == 0 {
        return Ok(None);
    }
    let mut nodes = nodes;
    nodes.push(node)?;
    Ok(Some(Draft::Trees {
        answer,
        nodes,
        trees: trees - 1 + more,
    }))
}

fn after_trees(
    alloc: Global,
    answer: Answer,
    nodes: List<Node>,
    trees: u64,
    line: Line,
) -> Result<Option<Draft>, NoMemory>
    requires { trees + 2 < 2 ^ 64 }
    ensures { IfOk result (λ draft. draft ≡ after_trees answer nodes trees line) }
{
    match line {
        Line::Split { param, cut, row } => {
            with_node(answer, nodes, trees, Node::Split { param, cut, row }, 2)
        }
        Line::Refuted { row } if trees > 0 => Ok(Some(Draft::Steps {
            answer,
            nodes,
            trees: trees - 1,
            row,
            steps: List::new(alloc),
            refutations: 1,
        })),
        Line::Dear => with_node(answer, nodes, trees, Node::Dear, 0),
        Line::Open => with_node(answer, nodes, trees, Node::Open, 0),
        Line::End if trees == 0 => Ok(Some(Draft::Whole(Cert {
            answer,
            tree: Tree { nodes },
        }))),
        _ => Ok(None),
    }
}

fn after_empty(
    answer: Answer,
    nodes: List<Node>,
    trees: u64,
    row: RowName,
    steps: List<Step>,
    refutations: u64,
) -> Result<Draft, NoMemory>
    requires { 0 < refutations }
    ensures { IfOk result (λ draft. draft ≡ after_empty answer nodes trees row steps refutations) }
{
    let mut steps = steps;
    steps.push(Step::Empty)?;
    if refutations > 1 {
        return Ok(Draft::Steps {
            answer,
            nodes,
            trees,
            row,
            steps,
            refutations: refutations - 1,
        });
    }
    let mut nodes = nodes;
    nodes.push(Node::Refuted { row, steps })?;
    Ok(Draft::Trees {
        answer,
        nodes,
        trees,
    })
}

fn with_step(steps: List<Step>, step: Step) -> Result<List<Step>, NoMemory>
    ensures { IfOk result (λ more. more ≡ steps ++ step ∷ []) }
{
    let mut steps = steps;
    steps.push(step)?;
    Ok(steps)
}

fn after_steps(
    answer: Answer,
    nodes: List<Node>,
    trees: u64,
    row: RowName,
    steps: List<Step>,
    refutations: u64,
    line: Line,
) -> Result<Option<Draft>, NoMemory>
    requires some { 0 < refutations }
    requires room { refutations + 1 < 2 ^ 64 }
    ensures { IfOk result (λ draft. draft ≡ after_steps answer nodes trees row steps refutations line) }
{
    match line {
        Line::Tight {
            inequality,
            var,
            bound,
        } => Ok(Some(Draft::Steps {
            answer,
            nodes,
            trees,
            row,
            steps: with_step(
                steps,
                Step::Tight {
                    inequality,
                    var,
                    bound,
                },
            )?,
            refutations,
        })),
        Line::Empty => Ok(Some(after_empty(answer, nodes, trees, row, steps, refutations)?)),
        Line::Case { var } => Ok(Some(Draft::Steps {
            answer,
            nodes,
            trees,
            row,
            steps: with_step(steps, Step::Case { var })?,
            refutations: refutations + 1,
        })),
        _ => Ok(None),
    }
}

fn after_head(alloc: Global, line: Line) -> Option<Draft>
    ensures { result ≡ after_head line }
{
    match line {
        Line::Answer(answer) => Some(Draft::Trees {
            answer,
            nodes: List::new(alloc),
            trees: 1,
        }),
        _ => None,
    }
}

fn at_start(line: Line) -> Option<Draft>
    ensures { result ≡ at_start line }
{
    match line {
        Line::Head => Some(Draft::Answer),
        _ => None,
    }
}

impl Draft {
    /// The draft with the line behind it: `None` where the line may not stand there.
    pub(crate) fn after(self, alloc: Global, line: Line) -> Result<Option<Draft>, NoMemory>
        requires { HasRoom self }
        ensures { IfOk result (λ draft. draft ≡ draft_after self line) }
    {
        match self {
            Draft::Head => Ok(at_start(line)),
            Draft::Answer => Ok(after_head(alloc, line)),
            Draft::Trees {
                answer,
                nodes,
                trees,
            } => after_trees(alloc, answer, nodes, trees, line),
            Draft::Steps {
                answer,
                nodes,
                trees,
                row,
                steps,
                refutations,
            } => after_steps(answer, nodes, trees, row, steps, refutations, line),
            Draft::Whole(_) => Ok(None),
        }
    }
}
