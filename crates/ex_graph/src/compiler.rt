use fj_graph::{NodeId, Work};

/// Makes targets.
#[derive(Drop)]
pub struct Compiler {
    /// How long each takes; 0 where it fails.
    pub efforts: Vec<u32>,
}

impl Work for Compiler {
    fn run(&self, target: NodeId) -> Result<(), u32> {
        let effort = self
            .efforts
            .get(target.0 as usize)
            .map_or(0, |effort| *effort);
        let mut word = 1u64;
        for _ in 0..effort {
            word = word.wrapping_mul(6_364_136_223_846_793_005).wrapping_add(1);
        }
        if effort == 0 || word == 0 {
            return Err(1);
        }
        Ok(())
    }
}
