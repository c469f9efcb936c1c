//! Units of each kind, each as the keys after its name. What flows in is the feed `f`, and each signal is `v`.

/// A tank of 1,000 mL, of which a hundredth leaves in a tick.
pub const TANK: &str = r#"kind = "tank"
in = "f"
valve = "v"
k = 10000
volume = 1000
flow = 10
conc = 0
temp = 300000
"#;

/// A reactor with a table of two points.
pub const REACTOR: &str = r#"kind = "reactor"
in = "f"
valve = "v"
jacket = "v"
k = 10000
rate = [[300000, 0], [310000, 1000000]]
heat = 0
ua = 0
volume = 1000
flow = 10
conc = 0
temp = 300000
"#;

/// The points of its table.
pub const RATES: &str = "[[300000, 0], [310000, 1000000]]";

/// A mixer of two streams.
pub const MIXER: &str = r#"kind = "mixer"
in = ["f", "f"]
"#;

/// The two that it mixes.
pub const PAIR: &str = "\"f\", \"f\"";

/// A splitter into halves.
pub const SPLITTER: &str = r#"kind = "splitter"
in = "f"
share = 500000
"#;

/// A column of eight stages.
pub const COLUMN: &str = r#"kind = "column"
liquid = "f"
vapour = "f"
stages = 8
holdup = 5000
slope = 800000
x = 0
liquid_flow = 10
liquid_temp = 300000
vapour_flow = 10
vapour_temp = 300000
"#;

/// A controller of the least gains.
pub const CONTROLLER: &str = r#"kind = "controller"
set = "v"
measured = "v"
kp = 1
ki = 1
bias = 0
integral_limits = [-10, 10]
integral = 0
out = 0
"#;
