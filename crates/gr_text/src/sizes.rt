ghost use Rattle.std.specs.Prelude.{◌≤◌};
ghost use Rattle.limits.specs.declared.TheConstants.{MAX_ARCS, MAX_VERTICES};

/// What a problem line states, within the limits.
#[derive(Clone, Copy, PartialEq, Eq)]
pub(crate) struct ProblemSize {
    pub vertices: u32,
    pub arcs: u32,
    ghost in_limit: { vertices ≤ MAX_VERTICES },
    ghost few_arcs: { arcs ≤ MAX_ARCS },
}
