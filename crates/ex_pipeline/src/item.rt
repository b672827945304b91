ghost use Rattle.std.specs.Prelude.{◌≡◌, IfSome};
ghost use Rattle.ex_pipeline.specs.Stages.{after, item_of, result_from, run};

use crate::stage::Stage;

/// The input of a stage.
#[derive(Clone, Copy, Debug, PartialEq, Eq)]
pub struct Item {
    /// The stage.
    pub stage: Stage,
    /// The number.
    pub value: u32,
}

impl Item {
    /// The input of the next stage. None where the number is rejected, and after the last stage.
    pub fn passed_on(self) -> Option<Item>
        ensures next { result ≡ item_of (after self.stage) (run self.stage self.value) }
        ensures rest { IfSome result (λ n. result_from self.stage self.value ≡ result_from n.stage n.value) }
    {
        match (self.stage.next(), self.stage.run(self.value)) {
            (Some(stage), Some(value)) => Some(Item { stage, value }),
            _ => None,
        }
    }
}
