//! The settings of a script.

ghost use Rattle.std.specs.Prelude.{◌≡◌, true, false, Option, None, Some, is_none, IfOk};
ghost use Rattle.ymx_model.specs.declared.types.Role.TheVariants.{Client, Server};
ghost use Rattle.ymx_model.specs.world.Worlds.{World as TheWorld};
ghost use Rattle.ymx_session.specs.NewSessions.{new_fault};
ghost use Rattle.ymx_script.specs.Scripts.{config_of, first_config, with_config, world_or_new};

use std::alloc::Global;
use ymx_header::{FIRST_CREDIT, WIDEST_WINDOW};
use ymx_memory::RefusedAllocation;
use ymx_model::{Config, Role, Side};
use ymx_session::NewFault;
use ymx_world::World;

/// The configs of both sides. With each of them a session can be made.
#[derive(Clone, Copy, Drop)]
pub(crate) struct Settings {
    a: Config,
    b: Config,
    ghost good_a: { new_fault Client a ≡ None },
    ghost good_b: { new_fault Server b ≡ None },
}

/// Whether a session can be made with this config.
fn is_good(role: Role, config: Config) -> bool
    ensures { result ≡ is_none (new_fault role config) }
{
    if config.window < FIRST_CREDIT || config.window > WIDEST_WINDOW {
        return false;
    }
    config.first == 0 || role.is_own(config.first)
}

impl Settings {
    /// Those at the start of a script.
    pub(crate) fn new() -> Settings
        ensures a { result.a ≡ first_config }
        ensures b { result.b ≡ first_config }
    {
        let config = Config {
            window: FIRST_CREDIT,
            first: 0,
        };
        Settings {
            a: config,
            b: config,
        }
    }

    /// The config of a side.
    pub(crate) fn config(&self, side: Side) -> Config
        ensures { (w : Option TheWorld) → result ≡ config_of side (record { a = self.now.a; b = self.now.b; world = w }) }
    {
        match side {
            Side::A => self.a,
            Side::B => self.b,
        }
    }

    /// Sets the config of a side, if a session can be made with it.
    pub(crate) fn set(&mut self, side: Side, config: Config) -> bool
        ensures good { result ≡ true → (w : Option TheWorld) →
            with_config side config (record { a = self.old.a; b = self.old.b; world = w }) ≡ Some (record { a = self.new.a; b = self.new.b; world = w }) }
        ensures bad { result ≡ false → (w : Option TheWorld) → is_none (with_config side config (record { a = self.old.a; b = self.old.b; world = w })) ≡ true }
        ensures same { result ≡ false → self.new ≡ self.old }
    {
        match side {
            Side::A => {
                if !is_good(Role::Client, config) {
                    return false;
                }
                self.a = config;
            }
            Side::B => {
                if !is_good(Role::Server, config) {
                    return false;
                }
                self.b = config;
            }
        }
        true
    }

    /// A world of two new sessions with these configs.
    pub(crate) fn new_world(&self, alloc: Global) -> Result<World, RefusedAllocation>
        ensures { IfOk result (λ world. world ≡ world_or_new self.now.a self.now.b None) }
    {
        match World::new(alloc, self.a, self.b) {
            Ok(world) => Ok(world),
            Err(NewFault::OutOfMemory(refused)) => Err(refused),
            Err(_) => unreachable!(),
        }
    }
}
