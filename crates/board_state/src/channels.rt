//! The parameters: their values, and their latest samples.
ghost use Rattle.std.specs.Prelude.{◌≡◌, ◌<◌, ◌==◌, ℕ, [], false, is_some, is_none, find, IfOk, IfSome, OnOk};
ghost use Rattle.std.specs.Option.{option_copied, option_map_or};
ghost use Rattle.circular_buffer.specs.Buffer.{buffer};
ghost use Rattle.sample_slots.specs.Windows.{sample_at};
ghost use Rattle.board_state.specs.Values.{channel_at, value_at, setting_held, settings_held, change_channel, filed_channel, set_channel, with_settings, IsLater, closing_sample, new_channels};

use hk_base::{Items, Memory, Param, Tailoring, Value};
use indexmap::IndexMap;
use sample_slots::Window;
use st20_grammar::Setting;
use std::alloc::Global;
use std::marker::Model;

/// A parameter on board.
#[derive(Drop)]
pub struct Channel {
    pub is_settable: bool,
    pub value: Option<Value>,
    window: Window,
}

impl Channel {
    /// A parameter with its initial value, and with no samples.
    fn new(alloc: Global, param: &Param, capacity: u32) -> Result<Channel, Memory>
        ensures { IfOk result (λ c. c ≡ record { is_settable = is_some param.now.initial; value = param.now.initial; window = buffer [] capacity }) }
    {
        Ok(Channel {
            is_settable: param.initial.is_some(),
            value: param.initial,
            window: Window::new(alloc, capacity)?,
        })
    }

    /// The sample of a slot, where that of the slot that closes is there too if the parameter is settable: its value.
    pub fn sample(&self, slot: u64, closing: u64) -> Option<Value>
        ensures { result ≡ closing_sample self.now slot closing }
    {
        if self.is_settable && slot == closing {
            self.value
        } else {
            self.window.at(slot)
        }
    }

    /// The value of a settable parameter, which has this ID.
    fn setting(&self, param: u32) -> Option<Setting>
        ensures { result ≡ setting_held (param, self.now) }
    {
        match self.value {
            Some(value) if self.is_settable => Some(Setting { param, value }),
            _ => None,
        }
    }

    /// Keeps a sample, which is the value now.
    fn file(&mut self, slot: u64, value: Value)
        requires { IsLater slot self.old }
        ensures { self.new ≡ filed_channel slot value self.old }
    {
        self.window.push(slot, value);
        self.value = Some(value);
    }
}

/// The parameters in the order of the tailoring.
#[derive(Drop)]
pub struct Channels {
    by_id: IndexMap<u32, Channel>,
}

impl Model for Channels {
    ghost use Rattle.std.specs.Prelude.{List, ℕ};
    ghost use Rattle.board_state.specs.declared.channels.Channel.{Channel};

    ghost Value = { List (ℕ × Channel) };

    ghost view = { λ c. c.by_id.entries };
}

impl Channels {
    /// The parameters of a tailoring, with windows for the longest interval.
    pub fn new(alloc: Global, tailoring: &Tailoring) -> Result<Channels, Memory>
        ensures { IfOk result (λ channels. channels ≡ new_channels tailoring.now) }
    {
        let capacity = tailoring.widths().max_interval;
        let mut by_id = IndexMap::new(alloc);
        for number in 0..tailoring.param_count() {
            let Some(param) = tailoring.param_at(number) else {
                unreachable!();
            };
            by_id.insert(param.id, Channel::new(alloc, param, capacity)?)?;
        }
        Ok(Channels { by_id })
    }

    /// The parameter with this ID.
    pub fn get(&self, param: u32) -> Option<&Channel>
        ensures { option_copied result ≡ channel_at self.now param }
    {
        self.by_id.get(&param)
    }

    /// The value of the parameter with this ID.
    pub fn value(&self, param: u32) -> Option<Value>
        ensures { result ≡ value_at self.now param }
    {
        self.by_id.get(&param)?.value
    }

    /// Whether the parameter has a sample in the slot.
    pub fn is_filed(&self, param: u32, slot: u64) -> bool
        ensures { result ≡ option_map_or (λ c. is_some (sample_at c.window.items slot)) (channel_at self.now param) false }
    {
        match self.by_id.get(&param) {
            Some(channel) => channel.window.at(slot).is_some(),
            None => false,
        }
    }

    /// Keeps a sample of a parameter, which is its value now.
    pub fn file(&mut self, param: u32, slot: u64, value: Value)
        requires { IfSome (channel_at self.old param) (IsLater slot) }
        ensures { self.new ≡ change_channel param (filed_channel slot value) self.old }
    {
        let Some(channel) = self.by_id.get_mut(&param) else {
            return;
        };
        channel.file(slot, value);
    }

    /// Sets the value of a parameter.
    fn set_one(&mut self, param: u32, value: Value)
        ensures { self.new ≡ change_channel param (set_channel value) self.old }
    {
        let Some(channel) = self.by_id.get_mut(&param) else {
            return;
        };
        channel.value = Some(value);
    }

    /// Sets values, one after the other.
    pub fn set(&mut self, settings: &[Setting])
        ensures { self.new ≡ with_settings settings.now self.old }
    {
        for setting in settings {
            self.set_one(setting.param, setting.value);
        }
    }

    /// The settable parameters with their values, in order.
    pub fn settings(&self, alloc: Global) -> Result<Items<Setting>, Memory>
        ensures { IfOk result (λ settings. settings ≡ settings_held self.now) }
    {
        let mut settings = Vec::new(alloc);
        for (param, channel) in self.by_id.iter() {
            if let Some(setting) = channel.setting(*param) {
                settings.push(setting)?;
            }
        }
        Ok(Items::from_vec(settings))
    }

    /// The first of these parameters that has no value.
    pub fn without_value(&self, ids: &[u32]) -> Option<u32>
        ensures { result ≡ find (λ id. is_none (value_at self.now id)) ids.now }
    {
        ids.iter().copied().find(|id| self.value(*id).is_none())
    }
}
