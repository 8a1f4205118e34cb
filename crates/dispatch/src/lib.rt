// An operator on operands of any shape: shape pair, common type, conversions, equal shape, the type's right, components.
#![tactic(auto)]

ghost use Rattle.std.specs.Prelude.{◌≡◌, true, Some};
ghost use Rattle.value.specs.Pattern.{pick};
ghost use Rattle.operand.specs.Operand.{in_shape, Small, operand_formed};
ghost use Rattle.components.specs.Components.{Out, stride_of};
ghost use Rattle.pairing.specs.Pairing.{targets_of};
ghost use Rattle.dispatch.specs.Meaning.{shaped_answer, by_component, matrix_product, on_converted, converted_to, judged, unary_judged};

use components::{converted, steps, unary_steps};
use operand::{
    Instance, Outcome, Shape, answered, count, is_matrix, is_scalar, refused, refused_as,
};
use pairing::{fits, is_product, misfit, pair_ok, result_shape, targets_of};
use products::{cells, vec_mat};
use value::{Refusal, refusals};

// An operand as it is worked on: its shape, which `shape` has judged, and its components, which are lent.
#[derive(Clone, Copy)]
struct Lent<'a>(Shape, &'a [u64; 16]);

// A run as an answer of a type and shape.
fn answer_of(run: Result<[u64; 16], Refusal>, ty: u8, cols: u8, rows: u8) -> Outcome
    ensures { result ≡ shaped_answer run ty cols rows }
{
    match run {
        Ok(comps) => answered(Instance {
            ty,
            cols,
            rows,
            comps,
        }),
        Err(r) => refused_as(r),
    }
}

// How far one component's place lies from the next: a scalar stands for every component.
fn stride(s: Shape) -> usize
    ensures { result ≡ stride_of s }
{
    if is_scalar(s) { 0 } else { 1 }
}

// A binary operator by component, on converted operands.
fn componentwise(op: u8, stage: u8, ty: u8, l: Lent, r: Lent) -> Outcome
    requires { Small l.0 × Small r.0 }
    ensures { result ≡ by_component op stage ty l.entry.0 l.entry.1.now r.entry.0 r.entry.1.now }
{
    let (a, b) = (l.0, r.0);
    let s = result_shape(a, b);
    let run = steps(
        op,
        stage,
        ty,
        l.1,
        0,
        stride(a),
        r.1,
        0,
        stride(b),
        count(s),
    );
    answer_of(run, types::result_type(op, ty), s.cols, s.rows)
}

// The first of two numbers, or the second.
fn choose(first: bool, x: u8, y: u8) -> u8
    ensures { result ≡ pick first x y }
{
    if first { x } else { y }
}

// A product that sums: vector with matrix, matrix with vector, matrix with matrix. A vector on the left is worked as a matrix of one
// row, one component after the other; where a step refuses, anew in its own order, in which another refusal may come first.
fn multiply(stage: u8, ty: u8, l: Lent, r: Lent) -> Outcome
    requires { Small l.0 × Small r.0 }
    ensures { result ≡ matrix_product stage ty l.entry.0 l.entry.1.now r.entry.0 r.entry.1.now }
{
    let (a, b) = (l.0, r.0);
    let vector = a.cols == 1;
    let rows = choose(vector, 1, a.rows) as usize;
    let inner = choose(vector, b.rows, a.cols) as usize;
    let run = cells(stage, ty, l.1, r.1, rows, inner, rows * (b.cols as usize));
    if vector & run.is_err() {
        let again = vec_mat(stage, ty, l.1, r.1, b.rows as usize, b.cols as usize);
        return answer_of(again, ty, 1, b.cols);
    }
    answer_of(
        run,
        ty,
        choose(vector, 1, b.cols),
        choose(vector, b.cols, a.rows),
    )
}

// Converted operands: equal shape, the type's right, the components.
fn work(op: u8, stage: u8, ty: u8, l: Lent, r: Lent) -> Outcome
    requires { Small l.0 × Small r.0 }
    ensures { result ≡ on_converted op stage ty l.entry.0 l.entry.1.now r.entry.0 r.entry.1.now }
{
    if !fits(op, l.0, r.0) {
        return refused(misfit(op, l.0, r.0), 0);
    }
    if !types::right(op, ty) {
        return refused(refusals::BINARY, 0);
    }
    if is_product(op, l.0, r.0) {
        return multiply(stage, ty, l, r);
    }
    componentwise(op, stage, ty, l, r)
}

// Conversions of both operands, left first, and what comes after. Operands that have their types are worked on as they stand.
fn convert_both(
    op: u8,
    stage: u8,
    x: u8,
    y: u8,
    lt: u8,
    a: Shape,
    l: &[u64; 16],
    rt: u8,
    b: Shape,
    r: &[u64; 16],
) -> Outcome
    requires { (operand_formed (in_shape lt a l.now) ≡ true) × (operand_formed (in_shape rt b r.now) ≡ true)
        × (targets_of op lt rt ≡ Some (x, y)) }
    ensures { result ≡ converted_to x y op stage (in_shape lt a l.now) (in_shape rt b r.now) }
{
    if (lt == x) & (rt == y) {
        return work(op, stage, x, Lent(a, l), Lent(b, r));
    }
    let left = match converted(lt, x, l, count(a)) {
        Ok(comps) => comps,
        Err(refusal) => return refused_as(refusal),
    };
    match converted(rt, y, r, count(b)) {
        Ok(right) => work(op, stage, x, Lent(a, &left), Lent(b, &right)),
        Err(refusal) => refused_as(refusal),
    }
}

// Well-formed operands: shape pair, common type, and what comes after.
pub fn judge(
    op: u8,
    stage: u8,
    lt: u8,
    a: Shape,
    l: &[u64; 16],
    rt: u8,
    b: Shape,
    r: &[u64; 16],
) -> Outcome
    requires { (operand_formed (in_shape lt a l.now) ≡ true) × (operand_formed (in_shape rt b r.now) ≡ true) }
    ensures { result ≡ judged op stage (in_shape lt a l.now) (in_shape rt b r.now) }
{
    if !pair_ok(op, a, b) {
        return refused(refusals::BINARY, 0);
    }
    let Some((x, y)) = targets_of(op, lt, rt) else {
        return refused(refusals::BINARY, 0);
    };
    convert_both(op, stage, x, y, lt, a, l, rt, b, r)
}

// A unary operator on a well-formed operand: its shape, the type's right, the components.
pub fn unary_judge(op: u8, ty: u8, s: Shape, comps: &[u64; 16]) -> Outcome
    requires { Small s }
    ensures { result ≡ unary_judged op (in_shape ty s comps.now) }
{
    if is_matrix(s) {
        return refused(refusals::UNARY, 0);
    }
    if !types::unary_right(op, ty) {
        return refused(refusals::UNARY, 0);
    }
    let run = unary_steps(op, ty, comps, count(s));
    answer_of(run, ty, s.cols, s.rows)
}
