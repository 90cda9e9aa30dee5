//! A ratio.
ghost use Rattle.std.specs.Prelude.{◌≤◌, length};

use pm_base::Text;

/// A ratio: the sum of some measurements through the sum of others.
#[derive(Drop)]
pub struct Ratio {
    pub name: Text,
    /// The measurements whose results are added above the line, each as often as it is named.
    pub above: Vec<Text>,
    /// Those below the line.
    pub below: Vec<Text>,
    pub ghost few_above: { length above.items ≤ 8 },
    pub ghost few_below: { length below.items ≤ 8 },
}
