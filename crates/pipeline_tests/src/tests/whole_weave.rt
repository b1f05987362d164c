//! Interleaving whole lists of residuals with the weaver.

ghost use Rattle.std.specs.Prelude.{◌≡◌, ◌<◌};

use crate::tests::checks::same;
use coder_pipe::plan::Plan;
use coder_pipe::weaver::Weaver;
use cube_core::fault::Fault;
use std::alloc::Global;
use std::process::Abort;

/// The result of weaving lists.
#[derive(Drop)]
pub(crate) struct Woven {
    /// The predictors that were wanted, in order.
    pub(crate) wanted: Vec<u32>,
    pub(crate) file: Vec<u8>,
}

/// Weaves 8-bit residuals, a list of them for each predictor, as the weaver wants them, and asserts that it wants
/// none after the last.
pub(crate) fn weave_all(
    rt: &impl Abort,
    alloc: Global,
    plan: &Plan,
    lists: &[Vec<u16>],
) -> Result<Woven, Fault>
    requires { plan.now.params.kind.bits ≡ 8 }
{
    plan.prove_is_plan();
    let mut weaver = Weaver::new(alloc, plan.params(), plan)?;
    let mut wanted = Vec::new(alloc);
    for index in 0..plan.params().shape.sample_count() {
        let _index = index;
        let predictor = weaver.wants().expect(rt, "a predictor that is wanted");
        let residual = next_of(rt, lists, predictor, &wanted);
        weaver.take(residual)?;
        wanted.push(predictor)?;
    }
    same(rt, weaver.wants(), None);
    Ok(Woven {
        wanted,
        file: weaver.finish()?,
    })
}

/// Returns the next residual of a predictor's list, given the predictors that were wanted before.
fn next_of(rt: &impl Abort, lists: &[Vec<u16>], predictor: u32, wanted: &[u32]) -> u16
    ensures { result < 256 }
{
    let before = wanted.iter().filter(|q| **q == predictor).count();
    let list = lists.get(predictor as usize).expect(rt, "a list");
    let residual = *list.get(before).expect(rt, "a residual");
    assert!(rt; residual < 256);
    residual
}
