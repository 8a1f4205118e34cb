// Work component by component, from 0 up, until one refuses. The loops are written out: where one function takes the step as a
// closure, a unary operator on a vector took twice the time.
#![tactic(auto)]

ghost use Rattle.std.specs.Prelude.{◌≡◌, ◌+◌, ◌*◌, ◌≤◌, ◌<◌};
ghost use Rattle.components.specs.Components.{each_component, lane, binary_at, unary_at, converted_at, Inside};

use scalar::refusal;
use value::{Refusal, refusals};

// The number at place a + i * s. Place and stride stand beside the sixteen: a struct of the three would be made anew for each component.
pub fn entry(xs: &[u64; 16], a: usize, i: usize, s: usize) -> u64
    requires { a + i * s < 16 }
    ensures { result ≡ lane xs.now a s i }
{
    xs[a + i * s]
}

// A binary operator by component: component i works on l's place a + i * s and r's place b + i * t.
pub fn steps(
    op: u8,
    stage: u8,
    ty: u8,
    l: &[u64; 16],
    a: usize,
    s: usize,
    r: &[u64; 16],
    b: usize,
    t: usize,
    n: usize,
) -> Result<[u64; 16], Refusal>
    requires { Inside a s n × Inside b t n × (n ≤ 16) }
    ensures { result ≡ each_component (binary_at op stage ty (lane l.now a s) (lane r.now b t)) n }
{
    let mut out = [0u64; 16];
    for i in 0..n {
        // 01 names this form here: a let that returns early on refusal.
        let step = scalar::binary_step(op, stage, ty, entry(l, a, i, s), entry(r, b, i, t));
        let Ok((_, bits)) = step else {
            return step.map(|_| out);
        };
        out[i] = bits;
    }
    Ok(out)
}

// A unary operator by component.
pub fn unary_steps(op: u8, ty: u8, xs: &[u64; 16], n: usize) -> Result<[u64; 16], Refusal>
    requires { n ≤ 16 }
    ensures { result ≡ each_component (unary_at op ty xs.now) n }
{
    let mut out = [0u64; 16];
    for i in 0..n {
        let step = scalar::unary_step(op, ty, xs[i]);
        let Ok((_, bits)) = step else {
            return step.map(|_| out);
        };
        out[i] = bits;
    }
    Ok(out)
}

// All components to another type.
pub fn converted(from: u8, to: u8, xs: &[u64; 16], n: usize) -> Result<[u64; 16], Refusal>
    requires { n ≤ 16 }
    ensures { result ≡ each_component (converted_at from to xs.now) n }
{
    let mut out = [0u64; 16];
    for i in 0..n {
        let Some(bits) = scalar::convert_step(from, to, xs[i]) else {
            return Err(refusal(refusals::BINARY));
        };
        out[i] = bits;
    }
    Ok(out)
}
