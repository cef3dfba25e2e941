// The texts of numbers.

use crate::{Noes, Numbers, Refusals};
use std::fmt;

/// The line of a server that serves.
#[derive(Clone, Copy)]
pub(crate) struct HealthLine<'a>(pub(crate) &'a Numbers);

impl fmt::Display for HealthLine<'_> {
    ghost use Rattle.std.specs.Prelude.{Some};
    ghost use Rattle.app_metrics.specs.Numbers.{health_line};

    ghost output = { λ line. Some (health_line line.0.now) };

    fn fmt<W: fmt::Write>(&self, f: &mut fmt::Formatter<W>) -> fmt::Result {
        let Numbers {
            published,
            clients,
            ..
        } = *self.0;
        write!(f, "serving version {published} clients {clients}\n")
    }
}

/// All numbers, as text for Prometheus.
#[derive(Clone, Copy)]
pub(crate) struct MetricsText<'a>(pub(crate) &'a Numbers);

impl fmt::Display for MetricsText<'_> {
    ghost use Rattle.std.specs.Prelude.{Some};
    ghost use Rattle.app_metrics.specs.Numbers.{metrics_text};

    ghost output = { λ text. Some (metrics_text text.0.now) };

    fn fmt<W: fmt::Write>(&self, f: &mut fmt::Formatter<W>) -> fmt::Result {
        let numbers = self.0;
        let document = DocumentText(numbers);
        let clients = ClientsText(numbers);
        let edits = EditsText(numbers);
        let journal = JournalText(numbers);
        write!(f, "{document}{clients}{edits}{journal}")
    }
}

// How the document stands.
#[derive(Clone, Copy)]
struct DocumentText<'a>(&'a Numbers);

impl fmt::Display for DocumentText<'_> {
    ghost use Rattle.std.specs.Prelude.{Some};
    ghost use Rattle.app_metrics.specs.Numbers.{document_text};

    ghost output = { λ text. Some (document_text text.0.now) };

    fn fmt<W: fmt::Write>(&self, f: &mut fmt::Formatter<W>) -> fmt::Result {
        let Numbers {
            version,
            published,
            floor,
            objects,
            ..
        } = *self.0;
        let version = Gauge("lugcurrant_version", version);
        let published = Gauge("lugcurrant_published_version", published);
        let floor = Gauge("lugcurrant_floor_version", floor);
        let objects = Gauge("lugcurrant_objects", objects);
        write!(f, "{version}{published}{floor}{objects}")
    }
}

// Who has connected.
#[derive(Clone, Copy)]
struct ClientsText<'a>(&'a Numbers);

impl fmt::Display for ClientsText<'_> {
    ghost use Rattle.std.specs.Prelude.{Some};
    ghost use Rattle.app_metrics.specs.Numbers.{clients_text};

    ghost output = { λ text. Some (clients_text text.0.now) };

    fn fmt<W: fmt::Write>(&self, f: &mut fmt::Formatter<W>) -> fmt::Result {
        let Numbers {
            clients,
            live,
            connections,
            turned_away,
            pushes,
            requests,
            ..
        } = *self.0;
        let clients = Gauge("lugcurrant_clients", clients);
        let live = Gauge("lugcurrant_live_clients", live);
        let connections = Counter("lugcurrant_connections_total", connections);
        let turned_away = Counter("lugcurrant_turned_away_total", turned_away);
        let pushes = Counter("lugcurrant_pushes_total", pushes);
        let requests = Counter("lugcurrant_requests_total", requests);
        write!(
            f,
            "{clients}{live}{connections}{turned_away}{pushes}{requests}"
        )
    }
}

// What was asked, and refused.
#[derive(Clone, Copy)]
struct EditsText<'a>(&'a Numbers);

impl fmt::Display for EditsText<'_> {
    ghost use Rattle.std.specs.Prelude.{Some};
    ghost use Rattle.app_metrics.specs.Numbers.{edits_text};

    ghost output = { λ text. Some (edits_text text.0.now) };

    fn fmt<W: fmt::Write>(&self, f: &mut fmt::Formatter<W>) -> fmt::Result {
        let Numbers {
            edits,
            refusals,
            noes,
            ..
        } = *self.0;
        let edits = Counter("lugcurrant_edits_total", edits);
        let refusals = RefusalsText(refusals);
        let noes = NoesText(noes);
        write!(f, "{edits}{refusals}{noes}")
    }
}

// The edits that the rules refused.
#[derive(Clone, Copy)]
struct RefusalsText(Refusals);

impl fmt::Display for RefusalsText {
    ghost use Rattle.std.specs.Prelude.{Some};
    ghost use Rattle.app_metrics.specs.Numbers.{refusals_text};

    ghost output = { λ text. Some (refusals_text text.0) };

    fn fmt<W: fmt::Write>(&self, f: &mut fmt::Formatter<W>) -> fmt::Result {
        let Refusals {
            is_root,
            bad_id,
            gone,
            parent_gone,
            bad_parent,
            cycle,
            crowded,
            too_deep,
        } = self.0;
        let name = "lugcurrant_refused_total";
        let is_root = ByReason(name, "is_root", is_root);
        let bad_id = ByReason(name, "bad_id", bad_id);
        let gone = ByReason(name, "gone", gone);
        let parent_gone = ByReason(name, "parent_gone", parent_gone);
        let bad_parent = ByReason(name, "bad_parent", bad_parent);
        let cycle = ByReason(name, "cycle", cycle);
        let crowded = ByReason(name, "crowded", crowded);
        let too_deep = ByReason(name, "too_deep", too_deep);
        write!(
            f,
            "# TYPE {name} counter\n{is_root}{bad_id}{gone}{parent_gone}{bad_parent}{cycle}{crowded}{too_deep}"
        )
    }
}

// The messages that were answered by a No.
#[derive(Clone, Copy)]
struct NoesText(Noes);

impl fmt::Display for NoesText {
    ghost use Rattle.std.specs.Prelude.{Some};
    ghost use Rattle.app_metrics.specs.Numbers.{noes_text};

    ghost output = { λ text. Some (noes_text text.0) };

    fn fmt<W: fmt::Write>(&self, f: &mut fmt::Formatter<W>) -> fmt::Result {
        let Noes {
            stranger,
            repeat,
            gap,
            full,
            device,
            failed,
            memory,
            too_large,
            not_read,
        } = self.0;
        let name = "lugcurrant_no_total";
        let stranger = ByReason(name, "stranger", stranger);
        let repeat = ByReason(name, "repeat", repeat);
        let gap = ByReason(name, "gap", gap);
        let full = ByReason(name, "full", full);
        let device = ByReason(name, "device", device);
        let failed = ByReason(name, "failed", failed);
        let memory = ByReason(name, "memory", memory);
        let too_large = ByReason(name, "too_large", too_large);
        let not_read = ByReason(name, "not_read", not_read);
        write!(
            f,
            "# TYPE {name} counter\n{stranger}{repeat}{gap}{full}{device}{failed}{memory}{too_large}{not_read}"
        )
    }
}

// What the journal has done.
#[derive(Clone, Copy)]
struct JournalText<'a>(&'a Numbers);

impl fmt::Display for JournalText<'_> {
    ghost use Rattle.std.specs.Prelude.{Some};
    ghost use Rattle.app_metrics.specs.Numbers.{journal_text};

    ghost output = { λ text. Some (journal_text text.0.now) };

    fn fmt<W: fmt::Write>(&self, f: &mut fmt::Formatter<W>) -> fmt::Result {
        let Numbers {
            entries,
            syncs,
            checkpoints,
            checkpoints_refused,
            checkpoint_micros,
            checkpoint_bytes,
            ..
        } = *self.0;
        let entries = Counter("lugcurrant_entries_total", entries);
        let syncs = Counter("lugcurrant_syncs_total", syncs);
        let checkpoints = Counter("lugcurrant_checkpoints_total", checkpoints);
        let refused = Counter("lugcurrant_checkpoints_refused_total", checkpoints_refused);
        let seconds = SecondsCounter("lugcurrant_checkpoint_seconds_total", checkpoint_micros);
        let bytes = Gauge("lugcurrant_checkpoint_bytes", checkpoint_bytes);
        write!(f, "{entries}{syncs}{checkpoints}{refused}{seconds}{bytes}")
    }
}

// A number that rises and falls, under its name.
#[derive(Clone, Copy)]
struct Gauge(&'static str, u64);

impl fmt::Display for Gauge {
    ghost use Rattle.std.specs.Prelude.{Some};
    ghost use Rattle.app_metrics.specs.Prometheus.{gauge};

    ghost output = { λ g. Some (gauge g.0.now g.1) };

    #[tactic(auto, unfolding(crate::specs::Prometheus::gauge))]
    fn fmt<W: fmt::Write>(&self, f: &mut fmt::Formatter<W>) -> fmt::Result {
        let Gauge(name, value) = *self;
        write!(f, "# TYPE {name} gauge\n{name} {value}\n")
    }
}

// A number that only rises, under its name.
#[derive(Clone, Copy)]
struct Counter(&'static str, u64);

impl fmt::Display for Counter {
    ghost use Rattle.std.specs.Prelude.{Some};
    ghost use Rattle.app_metrics.specs.Prometheus.{counter};

    ghost output = { λ c. Some (counter c.0.now c.1) };

    #[tactic(auto, unfolding(crate::specs::Prometheus::counter))]
    fn fmt<W: fmt::Write>(&self, f: &mut fmt::Formatter<W>) -> fmt::Result {
        let Counter(name, value) = *self;
        write!(f, "# TYPE {name} counter\n{name} {value}\n")
    }
}

// A number of a family that has one for each reason: the family's name, the reason, and the number.
#[derive(Clone, Copy)]
struct ByReason(&'static str, &'static str, u64);

impl fmt::Display for ByReason {
    ghost use Rattle.std.specs.Prelude.{Some};
    ghost use Rattle.app_metrics.specs.Prometheus.{by_reason};

    ghost output = { λ b. Some (by_reason b.0.now b.1.now b.2) };

    #[tactic(auto, unfolding(crate::specs::Prometheus::by_reason))]
    fn fmt<W: fmt::Write>(&self, f: &mut fmt::Formatter<W>) -> fmt::Result {
        let ByReason(name, reason, value) = *self;
        write!(f, "{name}{{reason=\"{reason}\"}} {value}\n")
    }
}

// Microseconds that only rise, under their name, told as seconds.
#[derive(Clone, Copy)]
struct SecondsCounter(&'static str, u64);

impl fmt::Display for SecondsCounter {
    ghost use Rattle.std.specs.Prelude.{Some};
    ghost use Rattle.app_metrics.specs.Prometheus.{seconds_counter};

    ghost output = { λ c. Some (seconds_counter c.0.now c.1) };

    #[tactic(auto, unfolding(crate::specs::Prometheus::seconds_counter))]
    fn fmt<W: fmt::Write>(&self, f: &mut fmt::Formatter<W>) -> fmt::Result {
        let SecondsCounter(name, micros) = *self;
        let seconds = Seconds(micros);
        write!(f, "# TYPE {name} counter\n{name} {seconds}\n")
    }
}

// Microseconds, told as seconds with six digits behind the point.
#[derive(Clone, Copy)]
struct Seconds(u64);

impl fmt::Display for Seconds {
    ghost use Rattle.std.specs.Prelude.{Some};
    ghost use Rattle.app_metrics.specs.Prometheus.{seconds};

    ghost output = { λ s. Some (seconds s.0) };

    fn fmt<W: fmt::Write>(&self, f: &mut fmt::Formatter<W>) -> fmt::Result {
        let micros = self.0;
        let whole = micros / 1_000_000;
        let (first, second, third) = (
            micros / 100_000 % 10,
            micros / 10_000 % 10,
            micros / 1_000 % 10,
        );
        let (fourth, fifth, sixth) = (micros / 100 % 10, micros / 10 % 10, micros % 10);
        write!(f, "{whole}.{first}{second}{third}{fourth}{fifth}{sixth}")
    }
}
