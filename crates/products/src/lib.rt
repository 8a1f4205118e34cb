// Sums of products: p0, p1, p0 + p1, p2 and so on, each step rounded and checked.
#![tactic(auto)]

ghost use Rattle.std.specs.Prelude.{◌≡◌, ◌-◌, ◌*◌, ◌≤◌, ◌<◌};
ghost use Rattle.components.specs.Components.{each_component, lane, Inside};
ghost use Rattle.products.specs.Products.{dot_of, cell_at, vector_matrix};

use components::{entry, steps};
use value::Refusal;

// One component's sum of products: the k-th is l's place a + k * s times r's place b + k.
fn dot(
    stage: u8,
    ty: u8,
    l: &[u64; 16],
    a: usize,
    s: usize,
    r: &[u64; 16],
    b: usize,
    n: usize,
) -> Result<u64, Refusal>
    requires { Inside a s n × Inside b 1 n × (1 ≤ n) }
    ensures { result ≡ dot_of stage ty (lane l.now a s) (lane r.now b 1) (n - 1) }
{
    // 01 names this form: a let that returns early on refusal.
    let first = scalar::product(stage, ty, entry(l, a, 0, s), entry(r, b, 0, 1));
    let Ok((_, mut sum)) = first else {
        return first.map(|(_, bits)| bits);
    };
    for k in 1..n {
        let next = scalar::add_product(stage, ty, sum, entry(l, a, k, s), entry(r, b, k, 1));
        let Ok((_, bits)) = next else {
            return next.map(|(_, bits)| bits);
        };
        sum = bits;
    }
    Ok(sum)
}

// A matrix with `rows` rows times one with `inner` rows, n components, one finished after the other. A vector on the right is one column.
pub fn cells(
    stage: u8,
    ty: u8,
    l: &[u64; 16],
    r: &[u64; 16],
    rows: usize,
    inner: usize,
    n: usize,
) -> Result<[u64; 16], Refusal>
    requires { (1 ≤ rows) × (rows ≤ 4) × (1 ≤ inner) × (inner ≤ 4) × (n ≤ rows * 4) }
    ensures { result ≡ each_component (cell_at stage ty l.now r.now rows inner) n }
{
    let mut out = [0u64; 16];
    for i in 0..n {
        let cell = dot(stage, ty, l, i % rows, rows, r, i / rows * inner, inner);
        let Ok(bits) = cell else {
            return cell.map(|_| out);
        };
        out[i] = bits;
    }
    Ok(out)
}

// Vector times matrix: each step for all components before the next. A round has all products of place k, and then all sums with them.
pub fn vec_mat(
    stage: u8,
    ty: u8,
    v: &[u64; 16],
    m: &[u64; 16],
    rows: usize,
    cols: usize,
) -> Result<[u64; 16], Refusal>
    requires { (1 ≤ rows) × (rows ≤ 4) × (cols ≤ 4) }
    ensures { result ≡ vector_matrix stage ty v.now m.now rows cols (rows - 1) }
{
    let mut sum = steps(5, stage, ty, v, 0, 0, m, 0, rows, cols)?;
    for k in 1..rows {
        let p = steps(5, stage, ty, v, k, 0, m, k, rows, cols)?;
        sum = steps(3, stage, ty, &sum, 0, 1, &p, 0, 1, cols)?;
    }
    Ok(sum)
}
