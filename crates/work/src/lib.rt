// What an accepted body means over the slots, as a whole and node by node: a node's walk and the walk of its operands call one another.
#![tactic(auto)]

ghost use Rattle.std.specs.Prelude.{◌≡◌, false, ◌+◌, ◌<◌, length, get_or};
ghost use Rattle.types.specs.Edition.{plain};
ghost use Rattle.operand.specs.Outcome.{value_of};
ghost use Rattle.slot.specs.Slot.{reference_to};
ghost use Rattle.sheet.specs.Node.{read_literal, literal_in};
ghost use Rattle.sheet.specs.Accepted.{NodeAt, LiteralAt, Bodied};
ghost use Rattle.work.specs.Meaning.{on_one, on_two};
ghost use Rattle.work.specs.Inside.{NodeMeans, BodyMeans, tag_byte};

use operand::Outcome;
use sheet::Kind;

// What a node means, and the place after it.
#[derive(Clone, Copy, Debug, PartialEq, Eq)]
pub struct Walked {
    pub answer: Outcome,
    pub next: usize,
}

// A unary operator on an answer: a refusal stands. Here and below 01 names the form: a let that returns early on refusal.
fn on_one(op: u8, stage: u8, x: Outcome) -> Outcome
    ensures { result ≡ on_one op stage x }
{
    let 0 = x.status else {
        return x;
    };
    shape::unary(op, stage, x.value)
}

// A binary operator on two answers: a refusal stands, the left one first.
fn on_two(op: u8, stage: u8, l: Outcome, r: Outcome) -> Outcome
    ensures { result ≡ on_two op stage l r }
{
    let 0 = l.status else {
        return l;
    };
    let 0 = r.status else {
        return r;
    };
    shape::binary(op, stage, l.value, r.value)
}

// A literal node: its value.
fn walk_literal(b: &[u8], at: usize) -> Walked
    requires { LiteralAt plain b.now at }
    ensures { (result.answer ≡ value_of (literal_in (read_literal plain false b.now at)).value) × (result.next ≡ (literal_in (read_literal plain false b.now at)).next) }
{
    let x = sheet::literal_at(b, at);
    Walked {
        answer: operand::answered(x.value),
        next: x.next,
    }
}

// A reference node: what the slot of the entry named gives.
fn walk_reference(b: &[u8], results: &[u8], at: usize) -> Walked
    requires { at + 1 < length b.now }
    ensures { (result.answer ≡ reference_to plain results.now (get_or b.now (at + 1) 0)) × (result.next ≡ at + 2) }
{
    Walked {
        answer: slot::reference(results, b[at + 1]),
        next: at + 2,
    }
}

// What the node at a place of an accepted body means, with all below it, and the place after it.
#[cycle(walk_node_walk_operands)]
pub fn walk_node(b: &[u8], results: &[u8], stage: u8, at: usize) -> Walked
    requires { NodeAt plain b.now at }
    ensures { NodeMeans plain stage b.now results.now at result }
{
    match b[at] {
        1 => walk_literal(b, at),
        2 => walk_reference(b, results, at),
        3 => walk_operands(b, results, stage, at, false),
        _ => walk_operands(b, results, stage, at, true),
    }
}

// An operator node: both operands are worked out before either is looked at. It is part of its caller by the attribute: as a call of its own it copies
// each answer once more.
#[cycle(walk_node_walk_operands)]
#[inline(always)]
fn walk_operands(b: &[u8], results: &[u8], stage: u8, at: usize, two: bool) -> Walked
    requires { NodeAt plain b.now at × (get_or b.now at 0 ≡ tag_byte two) }
    ensures { NodeMeans plain stage b.now results.now at result }
{
    let op = b[at + 1];
    let first = walk_node(b, results, stage, at + 2);
    if two {
        let second = walk_node(b, results, stage, first.next);
        return Walked {
            answer: on_two(op, stage, first.answer, second.answer),
            next: second.next,
        };
    }
    Walked {
        answer: on_one(op, stage, first.answer),
        next: first.next,
    }
}

// What the entry of an accepted body with this stage byte means over the slots: a setting's is its value.
pub fn entry(b: &[u8], results: &[u8], stage: u8) -> Outcome
    requires { Bodied plain stage b.now }
    ensures { BodyMeans plain stage b.now results.now result }
{
    match sheet::kind_of(stage) {
        Kind::Setting => walk_literal(b, 0).answer,
        Kind::Expression => walk_node(b, results, stage, 0).answer,
    }
}
