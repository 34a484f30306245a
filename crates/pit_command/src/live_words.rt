ghost use Rattle.std.specs.Prelude.{◌≤◌, length, IfSome};
ghost use Rattle.std.proofs.Props.{props};
ghost use Rattle.pit_command.specs.Limits.{planners_max};

/// What `live` is given.
#[derive(Clone, Copy)]
pub struct LiveWords<'a> {
    /// The path of the model.
    pub model: &'a str,
    /// The path of its precedences.
    pub precedence: &'a str,
    /// The path of the blocks' places.
    pub blocks: Option<&'a str>,
    /// The path of the history that is carried on, which may not be there yet.
    pub history: &'a str,
    /// A word for the streams of each planner, of which `stream_paths` gives the paths; none where one planner has the standard streams.
    pub streams: Option<&'a [&'a str]>,
    pub ghost few: { IfSome streams (λ words. length words.now ≤ planners_max) } by { Prim.hlevel props },
}
