// Laws, on functions that do nothing.
ghost use Rattle.std.specs.Prelude.{◌≡◌};
ghost use Rattle.pb_language.specs.Program.{Batch};
ghost use Rattle.pb_language.specs.Task.{Task};
ghost use Rattle.pb_machine.specs.Hosts.{FlatHost};
ghost use Rattle.pb_machine.specs.Run.{FlatState, world_of};
ghost use Rattle.pb_world.specs.World.{Shows, world_shown};
ghost use Rattle.pb_world.specs.declared.world.HostWorld.{HostWorld};

/// Where what is kept is what the state of the run has, the world is the one of the definitions.
pub fn shows_the_world()
    ensures { (w : HostWorld) (s : FlatState) (b : Batch) (h : FlatHost) (t : Task)
        → Shows w s b h t → world_shown w ≡ world_of s b h t }
{}
