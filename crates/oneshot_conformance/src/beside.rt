//! The runs of the model beside a run of the ends: one, or one of each channel where each thread has an end of two.

use crate::differs::Differs;
use crate::event::{Event, event_of};
use crate::follower::Follower;
use crate::model::Model;
use crate::scripts::{Channels, Scripts};
use std::alloc::Global;

/// Where a run differs: at which of its words, from 1, and why.
#[derive(Drop)]
pub(crate) struct Difference {
    pub(crate) word: usize,
    pub(crate) why: Differs,
}

/// A run of the model of each channel.
#[derive(Drop)]
pub(crate) struct Beside {
    channels: Channels,
    first: Follower,
    second: Option<Second>,
}

/// A run of the model of the second channel.
#[derive(Drop)]
struct Second {
    follower: Follower,
    /// Whether the thread with the sender of the first channel has the receiver of this one.
    is_swapped: bool,
}

impl Beside {
    pub(crate) fn begin(alloc: Global, scripts: &Scripts) -> Result<Beside, Differs> {
        let second = Second::begin(alloc, scripts)?;
        Ok(Beside {
            channels: scripts.channels(),
            first: Follower::new(scripts.begin_first(alloc)?),
            second,
        })
    }

    /// Moves the model by each word.
    pub(crate) fn follow(&mut self, words: &str) -> Result<(), Difference> {
        let mut word = 0_usize;
        for text in words.split(' ') {
            word = word.saturating_add(1);
            if let Err(why) = self.follow_word(text) {
                return Err(Difference { word, why });
            }
        }
        match self.end() {
            Ok(()) => Ok(()),
            Err(why) => Err(Difference { word, why }),
        }
    }

    /// A word of the second channel ends with a prime. Where there is none, it is of a channel within the message.
    fn follow_word(&mut self, text: &str) -> Result<(), Differs> {
        let Some(word) = text.strip_suffix('\'') else {
            return self.first.follow(read_event(text)?);
        };
        match &mut self.second {
            Some(second) => second.follow(read_event(word)?),
            None => Ok(()),
        }
    }

    fn end(&self) -> Result<(), Differs> {
        self.first.end()?;
        match &self.second {
            Some(second) => second.follower.end(),
            None => Ok(()),
        }
    }

    /// Whether an end sleeps for ever.
    pub(crate) fn is_stuck(&self) -> bool {
        match &self.second {
            Some(second) => self.first.is_stuck || second.follower.is_stuck,
            None => self.first.is_stuck,
        }
    }

    /// How many operations on the word of each channel were made.
    pub(crate) fn operations(&self) -> usize {
        let first = self.first.model.operations();
        match &self.second {
            Some(second) => first.saturating_add(second.follower.model.operations()),
            None => first,
        }
    }

    /// The run of the model of the first channel.
    pub(crate) fn first(&self) -> &Model {
        &self.first.model
    }

    /// The same, if that channel has the pair's own scripts.
    pub(crate) fn first_by_own_scripts(&self) -> Option<&Model> {
        match self.channels {
            Channels::One | Channels::Two => Some(&self.first.model),
            Channels::SentSender | Channels::SentReceiver => None,
        }
    }

    /// The run of the model of the second channel, which has the pair's own scripts.
    pub(crate) fn second(&self) -> Option<&Model> {
        match &self.second {
            Some(second) => Some(&second.follower.model),
            None => None,
        }
    }
}

impl Second {
    /// Begins the run of the second channel, if there is one.
    fn begin(alloc: Global, scripts: &Scripts) -> Result<Option<Second>, Differs> {
        let is_swapped = match scripts.channels() {
            Channels::One => return Ok(None),
            Channels::Two | Channels::SentSender => true,
            Channels::SentReceiver => false,
        };
        Ok(Some(Second {
            follower: Follower::new(scripts.begin(alloc)?),
            is_swapped,
        }))
    }

    fn follow(&mut self, event: Event) -> Result<(), Differs> {
        let told = if self.is_swapped {
            event.by_other_thread()
        } else {
            event
        };
        self.follower.follow(told)
    }
}

/// What a word of the program that runs the ends reports.
fn read_event(word: &str) -> Result<Event, Differs> {
    event_of(word).ok_or(Differs::UnknownWord)
}
