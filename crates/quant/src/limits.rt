use crate::band::Band;

/// Where the flows (mL per tick), concentrations (mg/L), temperatures (mK), volumes (mL) and signals
/// of a plant or a unit have to lie.
#[derive(Clone, Copy, Debug, PartialEq, Eq)]
pub struct Limits {
    pub flow: Band,
    pub conc: Band,
    pub temp: Band,
    pub volume: Band,
    pub signal: Band,
}
