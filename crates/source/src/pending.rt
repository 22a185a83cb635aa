// What happens to a source. `messages` is the domain's delivery mode: false is direct, true by messages.
ghost use Rattle.std.specs.Prelude.{◌≡◌};
ghost use Rattle.source.specs.Pending.{inactive, fresh, settled, wire_changed, pended, cleared};
ghost use Rattle.source.specs.Pending.{moded, redelivered, retargeted, candidate};

use super::Source;
use source_mode::{active, level, rectified};
use source_target::{kept_target, start_target};

impl Source {
    // A source that is not active in the domain.
    pub fn inactive(mode: u32) -> Source
        ensures { result ≡ inactive mode }
    {
        Source {
            mode,
            target: 0,
            pending: false,
            enabled: false,
        }
    }

    // A source that becomes active.
    fn fresh(messages: bool, mode: u32) -> Source
        ensures { result ≡ fresh messages mode }
    {
        Source {
            target: start_target(messages),
            ..Source::inactive(mode)
        }
    }

    // The pending bit after the rectified value rose, or did not, and now is `high`.
    #[tactic(auto, unfolding(crate::specs::Pending::settled))]
    fn settled(mut self, messages: bool, rose: bool, high: bool) -> Source
        ensures { result ≡ settled self messages rose high }
    {
        self.pending = match (level(self.mode), messages) {
            (true, true) => high & (self.pending | rose),
            (true, false) => high,
            (false, _) => self.pending | rose,
        };
        self
    }

    #[tactic(auto, unfolding(crate::specs::Pending::wire_changed))]
    pub fn wire_changed(self, messages: bool, was: bool, is: bool) -> Source
        ensures { result ≡ wire_changed self messages was is }
    {
        let before = rectified(self.mode, was);
        let after = rectified(self.mode, is);
        self.settled(messages, !before & after, after)
    }

    // A write of the setip family.
    #[tactic(auto, unfolding(crate::specs::Pending::pended))]
    pub fn pended(mut self, messages: bool, wire: bool) -> Source
        ensures { result ≡ pended self messages wire }
    {
        if !active(self.mode) {
            return self;
        }
        if !level(self.mode) {
            self.pending = true;
            return self;
        }
        if messages {
            self.pending = self.pending | rectified(self.mode, wire);
        }
        self
    }

    // A write of the in_clrip family, or a claim: a level source in direct mode keeps its bit.
    #[tactic(auto, unfolding(crate::specs::Pending::cleared))]
    pub fn cleared(mut self, messages: bool) -> Source
        ensures { result ≡ cleared self messages }
    {
        let copied = level(self.mode) & !messages;
        self.pending = copied & self.pending;
        self
    }

    // A new sourcecfg word.
    #[tactic(auto, unfolding(crate::specs::Pending::moded))]
    pub fn moded(self, messages: bool, mode: u32, wire: bool) -> Source
        ensures { result ≡ moded self messages mode wire }
    {
        let before = rectified(self.mode, wire);
        let after = rectified(mode, wire);
        if !active(mode) {
            return Source::inactive(mode);
        }
        let started = if active(self.mode) {
            Source { mode, ..self }
        } else {
            Source::fresh(messages, mode)
        };
        started.settled(messages, !before & after, after)
    }

    // The domain's delivery mode became `messages`.
    #[tactic(auto, unfolding(crate::specs::Pending::redelivered))]
    pub fn redelivered(mut self, messages: bool, wire: bool) -> Source
        ensures { result ≡ redelivered self messages wire }
    {
        if !active(self.mode) {
            return self;
        }
        self.target = start_target(messages);
        let high = rectified(self.mode, wire);
        self.settled(messages, false, high)
    }

    #[tactic(auto, unfolding(crate::specs::Pending::retargeted))]
    pub fn retargeted(mut self, child: bool, messages: bool, value: u32) -> Source
        ensures { result ≡ retargeted self child messages value }
    {
        if active(self.mode) {
            self.target = kept_target(child, messages, value);
        }
        self
    }

    // To be sent, where the domain sends.
    #[tactic(auto, unfolding(crate::specs::Pending::candidate))]
    pub fn candidate(self) -> bool
        ensures { result ≡ candidate self }
    {
        active(self.mode) & self.pending & self.enabled
    }
}
