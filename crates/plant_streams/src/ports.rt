//! What a unit reads and gives, in the order of its ports.

ghost use Rattle.std.specs.Prelude.{◌≡◌, ◌≤◌, map, length, IfOk};
ghost use Rattle.plant_streams.specs.Streams.{ports_of, needs, needs_material, needs_signal, mixer_references, references_of};
ghost use Rattle.plant_streams.specs.Seen.{port_seen, reference_seen};

use parts::KindPart;
use plant_names::Text;
use std::alloc::{AllocError, Global};

/// An output port, by its name: it gives a material stream or a signal.
#[derive(Clone, Copy, Debug)]
pub enum Port {
    Material(&'static str),
    Signal(&'static str),
}

impl Port {
    ghost use Rattle.std.specs.Prelude.{◌≡◌};
    ghost use Rattle.plant_streams.specs.Seen.{port_seen};

    /// Its name.
    pub fn name(self) -> &'static str
        ensures { result.now ≡ (port_seen self).name }
    {
        match self {
            Port::Material(name) => name,
            Port::Signal(name) => name,
        }
    }

    /// Whether it gives a signal.
    pub fn is_signal(self) -> bool
        ensures { result ≡ (port_seen self).signal }
    {
        matches!(self, Port::Signal(_))
    }
}

/// The outputs of a unit of this kind.
#[tactic(auto, unfolding(crate::specs::Streams::ports_of))]
pub fn ports_of(kind: &KindPart) -> &'static [Port]
    ensures ports { map port_seen result.now ≡ ports_of kind.now }
    ensures few { length result.now ≤ 3 }
{
    match kind {
        KindPart::Tank { .. } => &[Port::Material("out"), Port::Signal("level")],
        KindPart::Reactor { .. } => &[
            Port::Material("out"),
            Port::Signal("level"),
            Port::Signal("temp"),
        ],
        KindPart::Column { .. } => &[Port::Material("liquid"), Port::Material("vapour")],
        KindPart::Controller { .. } => &[Port::Signal("out")],
        KindPart::Mixer { .. } => &[Port::Material("out")],
        KindPart::Splitter { .. } => &[Port::Material("first"), Port::Material("second")],
    }
}

/// A reference of a unit: its key, with an index among the inputs of a mixer; what it names; and whether it needs a signal.
#[derive(Clone, Copy, Debug)]
pub struct Reference<'a> {
    pub key: &'static str,
    pub index: Option<usize>,
    pub name: &'a [u8],
    pub signal: bool,
}

/// What names the stream at a key, where a signal is needed or a material stream.
fn needs<'a>(signal: bool, key: &'static str, name: &'a Text) -> Reference<'a>
    ensures { reference_seen result ≡ needs signal key.now name.now }
{
    Reference {
        key,
        index: None,
        name: name.as_bytes(),
        signal,
    }
}

fn material<'a>(key: &'static str, name: &'a Text) -> Reference<'a>
    ensures { reference_seen result ≡ needs_material key.now name.now }
{
    needs(false, key, name)
}

fn signal<'a>(key: &'static str, name: &'a Text) -> Reference<'a>
    ensures { reference_seen result ≡ needs_signal key.now name.now }
{
    needs(true, key, name)
}

/// The inputs of a mixer.
fn mixer_references(alloc: Global, inputs: &[Text]) -> Result<Vec<Reference<'_>>, AllocError>
    ensures { IfOk result (λ references. map reference_seen references.items ≡ mixer_references 0 inputs.now) }
{
    let mut references = Vec::new(alloc);
    for (index, input) in inputs.iter().enumerate() {
        references.push(Reference {
            key: "in",
            index: Some(index),
            name: input.as_bytes(),
            signal: false,
        })?;
    }
    Ok(references)
}

/// What a unit of this kind reads.
#[tactic(auto, unfolding(crate::specs::Streams::references_of))]
pub fn references_of(alloc: Global, kind: &KindPart) -> Result<Vec<Reference<'_>>, AllocError>
    ensures { IfOk result (λ references. map reference_seen references.items ≡ references_of kind.now) }
{
    match kind {
        KindPart::Tank { input, valve, .. } => {
            Vec::from_slice(alloc, &[material("in", input), signal("valve", valve)])
        }
        KindPart::Reactor {
            input,
            valve,
            jacket,
            ..
        } => {
            Vec::from_slice(
                alloc,
                &[
                    material("in", input),
                    signal("valve", valve),
                    signal("jacket", jacket),
                ],
            )
        }
        KindPart::Column { liquid, vapour, .. } => {
            Vec::from_slice(
                alloc,
                &[material("liquid", liquid), material("vapour", vapour)],
            )
        }
        KindPart::Controller { set, measured, .. } => {
            Vec::from_slice(alloc, &[signal("set", set), signal("measured", measured)])
        }
        KindPart::Mixer { input } => mixer_references(alloc, input.as_slice()),
        KindPart::Splitter { input, .. } => Vec::from_slice(alloc, &[material("in", input)]),
    }
}
