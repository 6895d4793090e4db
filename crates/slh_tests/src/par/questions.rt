//! One question to each item of a list.
use super::fixtures::workers;
use crate::shared::equal;
use slh_par::{NoMemory, Question, answer_all};
use std::test::Fail;

/// Which number follows. The largest one has no answer but a refusal.
#[derive(Drop)]
struct Next;

impl Question<u32> for Next {
    ghost use Rattle.std.specs.Prelude.{◌≡◌, ◌+◌};

    type Answer = u32;

    ghost is_answer = { λ _ item answer. answer ≡ item + 1 };

    fn answer(&self, item: &u32) -> Result<u32, NoMemory> {
        item.checked_add(1).ok_or(NoMemory)
    }
}

#[test]
fn answers_in_the_order_of_the_items(rt: HostRuntime) -> Result<(), Fail> {
    for number in [1u8, 2, 64] {
        let some = workers(number)?;
        let answers = answer_all(&rt, rt.alloc(), &Next, &[7, 0, 100, 7], some)?;
        equal(&rt, &answers.as_slice(), &[8, 1, 101, 8].as_slice());
        let none = answer_all(&rt, rt.alloc(), &Next, &[], some)?;
        equal(&rt, &none.len(), &0);
        let refused = answer_all(&rt, rt.alloc(), &Next, &[7, u32::MAX, 0], some);
        equal(&rt, &refused.err(), &Some(NoMemory));
    }
    Ok(())
}
