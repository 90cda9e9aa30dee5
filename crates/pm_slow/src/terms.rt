//! What a job or a monitor asks for, in numbers of an inventory and in ticks.
ghost use Rattle.std.specs.Prelude.{◌≡◌, ◌<◌, ◌^◌};
ghost use Rattle.pm_history.specs.Terms.{reporting};

use pm_base::Class;
use pm_history::Metric;
use std::marker::Model;

/// What a job measures on the objects of one class: metrics in catalogue order, objects in tree order.
#[derive(Drop)]
pub struct Measured {
    pub class: Class,
    pub metrics: Vec<Metric>,
    pub objects: Vec<u16>,
}

impl Model for Measured {
    ghost use Rattle.pm_history.specs.Terms.{Measured};

    ghost Value = { Measured };

    ghost view = { λ m. record { class = m.class; metrics = m.metrics.items; objects = m.objects.items } };
}

impl Measured {
    pub fn class(&self) -> Class
        ensures { result ≡ self.now.class }
    {
        self.class
    }

    pub fn metrics(&self) -> &[Metric]
        ensures { result.now ≡ self.now.metrics }
    {
        self.metrics.as_slice()
    }

    pub fn objects(&self) -> &[u16]
        ensures { result.now ≡ self.now.objects }
    {
        self.objects.as_slice()
    }
}

/// What a monitor watches: one metric of one threshold, on its measured objects in tree order.
#[derive(Drop)]
pub struct Watched {
    /// The threshold's number in the monitor's list, from 0.
    pub threshold: u8,
    pub metric: Metric,
    pub objects: Vec<u16>,
    /// The threshold and its hysteresis, as given, in the metric's unit.
    pub value: u64,
    pub hysteresis: u64,
    /// A crossing upward is at `high`, one downward at `low`.
    pub high: u64,
    pub low: u64,
    /// Which crossings are kept.
    pub up: bool,
    pub down: bool,
}

impl Model for Watched {
    ghost use Rattle.pm_history.specs.Terms.{Watched};

    ghost Value = { Watched };

    ghost view = { λ w. record {
      threshold = w.threshold;
      metric = w.metric;
      objects = w.objects.items;
      value = w.value;
      hysteresis = w.hysteresis;
      high = w.high;
      low = w.low;
      up = w.up;
      down = w.down;
    } };
}

impl Watched {
    pub fn metric(&self) -> Metric
        ensures { result ≡ self.now.metric }
    {
        self.metric
    }

    pub fn objects(&self) -> &[u16]
        ensures { result.now ≡ self.now.objects }
    {
        self.objects.as_slice()
    }
}

/// The granularity period in ticks, how many of them a reporting period has, the state as made, and what is measured and watched.
#[derive(Drop)]
pub struct Terms {
    pub granularity: u32,
    pub parts: u32,
    pub unlocked: bool,
    pub measured: Vec<Measured>,
    pub watched: Vec<Watched>,
}

impl Model for Terms {
    ghost use Rattle.pm_history.specs.Terms.{Terms};

    ghost Value = { Terms };

    ghost view = { λ t. record {
      granularity = t.granularity;
      parts = t.parts;
      unlocked = t.unlocked;
      measured = t.measured.items;
      watched = t.watched.items;
    } };
}

impl Terms {
    /// The state as made.
    pub fn unlocked(&self) -> bool
        ensures { result ≡ self.now.unlocked }
    {
        self.unlocked
    }

    /// The granularity period, in ticks.
    pub fn granularity(&self) -> u64
        ensures value { result ≡ self.now.granularity }
        ensures most { result < 2 ^ 32 }
    {
        u64::from(self.granularity)
    }

    /// How many granularity periods a reporting period has.
    pub fn parts(&self) -> u64
        ensures value { result ≡ self.now.parts }
        ensures most { result < 2 ^ 32 }
    {
        u64::from(self.parts)
    }

    /// The reporting period, in ticks.
    pub fn reporting(&self) -> u64
        ensures { result ≡ reporting self.now }
    {
        u64::from(self.parts) * u64::from(self.granularity)
    }

    /// What is measured, by class in byte order of its name.
    pub fn measured(&self) -> &[Measured]
        ensures { result.now ≡ self.now.measured }
    {
        self.measured.as_slice()
    }

    /// What is watched, by threshold and by metric in catalogue order.
    pub fn watched(&self) -> &[Watched]
        ensures { result.now ≡ self.now.watched }
    {
        self.watched.as_slice()
    }
}
