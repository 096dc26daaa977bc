// A write that answers the value that stood there, in any store.
ghost use Rattle.std.specs.Prelude.{◌≡◌, Some, IfOk, slice_get};
ghost use Rattle.stores.specs.Answers.{WriteOf};

use crate::store::Store;
use refusals::Refusal;

pub fn exchange<S: Store>(store: &mut S, item: usize, value: S::Value) -> Result<S::Value, Refusal>
    ensures answer { WriteOf (S.values store.old) (S.space store.old) item value result (S.values store.new) (S.space store.new) }
    ensures old { IfOk result (λ old. slice_get (S.values store.old) item ≡ Some old) }
    ensures loans { S.loans store.new ≡ S.loans store.old }
{
    let old = store.read(item)?;
    store.write(item, value)?;
    Ok(old)
}
