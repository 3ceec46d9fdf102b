// Delays add up.
ghost use Rattle.measure.specs.Delay.{delay as delay_measure};
ghost use Rattle.measure.specs.Delays.{delay_laws};

use crate::Measure;
use network::types::Figures;

pub struct Delay;

impl Measure for Delay {
    type Cost = u32;

    ghost measure = { delay_measure };

    ghost laws = { delay_laws };

    fn start() -> u32 {
        0
    }

    fn extend(cost: u32, figures: Figures) -> u32 {
        cost + figures.delay
    }

    fn less(a: u32, b: u32) -> bool {
        a < b
    }

    fn in_range(cost: u32) -> bool {
        cost <= 1_024_000_000
    }
}
