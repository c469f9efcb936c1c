//! Whole plants, and how texts are made of pieces.

use std::alloc::Global;
use std::ops::RangeInclusive;
use std::test::Fail;

/// A unit: its name, the keys after it, and the phrases of these that change.
pub type Unit = (
    &'static str,
    &'static str,
    &'static [(&'static str, &'static str)],
);

/// A plant up to its units: three ticks in one window, the material feed `f` and the signal `v`.
const FEEDS: &str = r#"format = 1
[run]
ticks = 3
window = 3
[limits]
flow = [0, 1000000]
conc = [0, 1000000]
temp = [0, 1000000]
volume = [1, 1000000]
signal = [0, 2000000]
[[feed]]
name = "f"
kind = "material"
flow = [10, 12]
conc = 100
temp = 300000
[[feed]]
name = "v"
kind = "signal"
value = 1000000
"#;

/// A change that limits the flow: a column's stages may then hold as little as 150 mL.
pub const LOW_FLOW: (&str, &str) = ("flow = [0, 1000000]", "flow = [0, 100]");

/// A plant with every kind of unit but a tank: a reactor under level control, with a recycle, and a column section
/// behind it.
pub const MIXED: &str = r#"format = 1
[run]
ticks = 120
window = 16
[limits]
flow = [0, 2000]
conc = [0, 10000]
temp = [200000, 500000]
volume = [1, 100000]
signal = [0, 2000000]
[[feed]]
name = "fresh"
kind = "material"
flow = [95, 105]
conc = 1000
temp = 300000
[[feed]]
name = "gas"
kind = "material"
flow = 200
conc = 50
temp = 300000
[[feed]]
name = "sp"
kind = "signal"
value = 10000
[[feed]]
name = "cool"
kind = "signal"
value = 310000
[[unit]]
name = "mix1"
kind = "mixer"
in = ["fresh", "split.second"]
[[unit]]
name = "r1"
kind = "reactor"
in = "mix1.out"
valve = "lc.out"
jacket = "cool"
k = 25000
rate = [[300000, 0], [350000, 100000], [400000, 500000]]
heat = 2000000
ua = 10000
volume = 10000
flow = 125
conc = 600
temp = 320000
[[unit]]
name = "lc"
kind = "controller"
set = "sp"
measured = "r1.level"
kp = -200000000
ki = -10000000
bias = 500000
integral_limits = [-200000, 200000]
integral = 0
out = 500000
limits = { signal = [0, 1000000] }
[[unit]]
name = "split"
kind = "splitter"
in = "r1.out"
share = 800000
[[unit]]
name = "col"
kind = "column"
liquid = "split.first"
vapour = "gas"
stages = 8
holdup = 5000
slope = 800000
x = 600
liquid_flow = 100
liquid_temp = 320000
vapour_flow = 200
vapour_temp = 300000
"#;

/// The text with the first of each phrase changed for another, one change after the other.
pub fn changed(alloc: Global, text: &str, changes: &[(&str, &str)]) -> Result<String, Fail> {
    let mut text = String::from_str(alloc, text)?;
    for &(old, new) in changes {
        let (before, after) = text
            .split_once(old)
            .ok_or("the text does not have the phrase")?;
        text = format!(in alloc; "{before}{new}{after}")?;
    }
    Ok(text)
}

/// Writes units behind a text.
fn push_units(alloc: Global, text: &mut String, units: &[Unit]) -> Result<(), Fail> {
    for &(name, keys, changes) in units {
        let keys = changed(alloc, keys, changes)?;
        let unit = format!(in alloc; "[[unit]]\nname = \"{name}\"\n{keys}")?;
        text.push_str(&unit)?;
    }
    Ok(())
}

/// The plant of the two feeds and these units.
pub fn plant_of(alloc: Global, units: &[Unit]) -> Result<String, Fail> {
    let mut text = String::from_str(alloc, FEEDS)?;
    push_units(alloc, &mut text, units)?;
    Ok(text)
}

/// The same with phrases changed.
pub fn plant_with(alloc: Global, units: &[Unit], changes: &[(&str, &str)]) -> Result<String, Fail> {
    changed(alloc, &plant_of(alloc, units)?, changes)
}

/// The text with a splitter behind it for each number, named `s` and its number: the first of them is fed by `first`,
/// and each other one by the first output of the one before it.
pub fn with_splitters(
    alloc: Global,
    mut text: String,
    numbers: RangeInclusive<u32>,
    first: &str,
    share: u32,
) -> Result<String, Fail> {
    let mut input = String::from_str(alloc, first)?;
    for number in numbers {
        let unit = format!(in alloc;
            "[[unit]]\nname = \"s{number}\"\nkind = \"splitter\"\nin = \"{input}\"\nshare = {share}\n"
        )?;
        text.push_str(&unit)?;
        input = format!(in alloc; "s{number}.first")?;
    }
    Ok(text)
}
