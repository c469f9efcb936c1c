//! The versions of each stream.

use crate::line::Line;
use crate::sizes::stream_count;
use quant::Band;
use renewal::WindowPlan;
use std::alloc::{AllocError, Global};
use std::marker::Model;
use tubes::Tube;

/// The versions of each stream: the newest whole, and of each older one the bands that the next replaced.
#[derive(Drop)]
pub(crate) struct Lines {
    lines: Vec<Line>,
    /// The bands that steps replaced, step by step.
    replaced: Vec<Band>,
}

impl Model for Lines {
    ghost use Rattle.std.specs.Prelude.{List, map};
    ghost use Rattle.std.specs.List.{AllByRecursion};
    ghost use Rattle.quant.specs.Interval.{Interval};
    ghost use Rattle.relax_core.specs.Versions.{versions_in, IsLine};

    ghost Value = { List (List (List (List Interval))) };

    ghost view = { λ lines. map (versions_in lines.replaced.items) lines.lines.items };

    ghost invariant = { λ lines. AllByRecursion (IsLine lines.replaced.items) lines.lines.items };
}

impl Lines {
    ghost use Rattle.std.specs.Prelude.{◌≡◌, ◌<◌, [], ◌∷◌, ◌++◌, ℕ, length, map, slice_set, IfOk, OnOk, OnErr};
    ghost use Rattle.std.specs.List.{range_with_len};
    ghost use Rattle.relaxation.specs.Tube.{HasNumbers, meet};
    ghost use Rattle.relaxation.specs.Core.{versions_of, version_at, last_of};
    ghost use Rattle.tubes.specs.Shape.{HasShapeOf};
    ghost use Rattle.relax_core.specs.Board.{opened};

    /// Each stream of a plan has its opening tube as version 0.
    pub(crate) fn open(alloc: Global, plan: &WindowPlan<'_>) -> Result<Self, AllocError>
        ensures { IfOk result (λ lines. lines ≡ opened plan.now) }
    {
        let mut lines = Vec::new(alloc);
        for stream in 0..stream_count(plan) {
            lines.push(Line::open(alloc, plan, stream)?)?;
        }
        Ok(Lines {
            lines,
            replaced: Vec::new(alloc),
        })
    }

    /// How many versions of a stream there are.
    pub(crate) fn count(&self, stream: u32) -> usize
        requires { stream < length self.now }
        ensures { result ≡ length (versions_of self.now stream) }
    {
        self.lines[stream as usize].changes.len() + 1
    }

    /// The last version of a stream.
    pub(crate) fn last(&self, stream: u32) -> &Tube
        requires { stream < length self.now }
        ensures { result.now ≡ last_of self.now stream }
    {
        &self.lines[stream as usize].newest
    }

    /// Writes the version of a stream with a number into a tube of its shape.
    pub(crate) fn read(&self, stream: u32, number: u32, into: &mut Tube)
        requires stream { stream < length self.now }
        requires number { number < length (versions_of self.now stream) }
        requires shape { HasShapeOf into.old (version_at self.now stream number) }
        ensures { into.new ≡ version_at self.now stream number }
    {
        self.lines[stream as usize].read(self.replaced.as_slice(), number as usize, into);
    }

    /// Appends the meet of a stream's last version with a renewal. Where memory ran out nothing changes.
    pub(crate) fn meet(&mut self, stream: u32, renewal: &Tube) -> Result<(), AllocError>
        requires stream { stream < length self.old }
        requires shape { HasShapeOf (last_of self.old stream) renewal.now }
        requires numbers { HasNumbers (meet (last_of self.old stream) renewal.now) }
        ensures ok { OnOk result (self.new ≡ slice_set self.old stream
            (versions_of self.old stream ++ meet (last_of self.old stream) renewal.now ∷ [])) }
        ensures err { OnErr result (self.new ≡ self.old) }
    {
        self.lines[stream as usize].meet(&mut self.replaced, renewal)
    }

    /// The last version of each stream.
    pub(crate) fn into_last(self, alloc: Global) -> Result<Vec<Tube>, AllocError>
        ensures { IfOk result (λ tubes. tubes.items ≡ map (last_of self) (range_with_len 0 (length self))) }
    {
        let mut tubes = Vec::with_capacity(alloc, self.lines.len())?;
        for line in self.lines {
            tubes.push_reserved(line.into_newest());
        }
        Ok(tubes)
    }
}
