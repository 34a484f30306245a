ghost use Rattle.std.specs.Prelude.{◌≡◌, map, option_map};
ghost use Rattle.pit_opening.specs.Beginnings.{is_carried_on, is_unbegun};

use pit_opening::Beginning;
use std::alloc::Allocator;
use std::marker::Model;

/// The texts of the inputs of `plan`, each whole: a model, its precedences, the places of blocks where they are given, what the plan begins with, and a
/// script for each planner.
#[derive(Drop)]
pub struct PlanInput<A: Allocator + Drop> {
    pub(crate) model: Vec<u8, A>,
    pub(crate) precedence: Vec<u8, A>,
    pub(crate) blocks: Option<Vec<u8, A>>,
    pub(crate) beginning: Beginning<A>,
    pub(crate) scripts: Vec<Vec<u8, A>, A>,
}

impl<A: Allocator + Drop> Model for PlanInput<A> {
    ghost use Rattle.std.specs.Prelude.{map, option_map};
    ghost use Rattle.pit_cli.specs.Texts.{Texts};

    ghost Value = { Texts };

    ghost view = { λ input. record {
      model = input.model.items;
      precedence = input.precedence.items;
      blocks = option_map (λ bytes. bytes.items) input.blocks;
      beginning = input.beginning;
      scripts = map (λ bytes. bytes.items) input.scripts.items;
    } };
}

impl<A: Allocator + Drop> PlanInput<A> {
    /// Keeps the texts. The scripts stand in the order of their planners.
    pub fn new(
        model: Vec<u8, A>,
        precedence: Vec<u8, A>,
        blocks: Option<Vec<u8, A>>,
        beginning: Beginning<A>,
        scripts: Vec<Vec<u8, A>, A>,
    ) -> PlanInput<A>
        ensures { result ≡ record {
          model = model.items;
          precedence = precedence.items;
          blocks = option_map (λ bytes. bytes.items) blocks;
          beginning = beginning;
          scripts = map (λ bytes. bytes.items) scripts.items;
        } }
    {
        PlanInput {
            model,
            precedence,
            blocks,
            beginning,
            scripts,
        }
    }

    /// Whether a history is carried on, which may not be there yet.
    pub fn is_carried_on(&self) -> bool
        ensures { result ≡ is_carried_on self.now.beginning }
    {
        self.beginning.is_carried_on()
    }

    /// Whether a history is to be carried on that isn't there yet.
    pub fn is_new(&self) -> bool
        ensures { result ≡ is_unbegun self.now.beginning }
    {
        self.beginning.is_new()
    }
}
