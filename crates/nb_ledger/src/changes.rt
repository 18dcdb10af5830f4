ghost use Rattle.std.specs.Prelude.{◌≡◌, ◌+◌, ◌<◌, ◌^◌, true, false, length};
ghost use Rattle.nb_ledger.specs.Ledger.{busy, object_lives, place, unused};
ghost use Rattle.nb_ledger.specs.Changes.{SetsHolds, SetsBusy, SetsPort, Adds, Removes};

use crate::{Book, ObjId, Object, Port, PortState};

impl Book {
    pub(crate) fn set_holds(&mut self, id: ObjId, count: u32)
        requires { object_lives self.old id.0 ≡ true }
        ensures { SetsHolds self.old self.new id.0 count }
    {
        let place = self.place(id);
        self.objects[place].holds = count;
    }

    /// Sets whether an entry of the object at this place runs; whether one did.
    #[inline(always)]
    pub(crate) fn set_busy(&mut self, id: ObjId, index: usize, runs: bool) -> bool
        requires lives { object_lives self.old id.0 ≡ true }
        requires place { index ≡ place self.old id.0 }
        ensures was { result ≡ busy self.old id.0 }
        ensures sets { SetsBusy self.old self.new id.0 runs }
    {
        let was = self.objects[index].busy;
        self.objects[index].busy = runs;
        was
    }

    /// The same where an entry ends; whether the object is then unused.
    #[inline(always)]
    pub(crate) fn end_entry(&mut self, id: ObjId, index: usize, runs: bool) -> bool
        requires lives { object_lives self.old id.0 ≡ true }
        requires place { index ≡ place self.old id.0 }
        ensures sets { SetsBusy self.old self.new id.0 runs }
        ensures unused { result ≡ unused self.new id.0 }
    {
        let object = &mut self.objects[index];
        object.busy = runs;
        object.is_unused()
    }

    pub(crate) fn set_port(&mut self, at: Port, state: PortState)
        requires lives { object_lives self.old at.obj.0 ≡ true }
        requires slot { at.slot < 4 }
        ensures sets { SetsPort self.old self.new at state }
        ensures made { at.obj.0 ≤ self.old.made }
    {
        let place = self.place(at.obj);
        self.objects[place].ports[at.slot as usize] = state;
    }

    pub(crate) fn add(&mut self, rank: u8) -> ObjId
        requires room { length self.old.objects < self.old.room }
        requires serial { self.old.made + 1 < 2 ^ 64 }
        ensures serial { result.0 ≡ self.old.made + 1 }
        ensures fresh { object_lives self.old result.0 ≡ false }
        ensures adds { Adds self.old self.new result.0 rank }
        ensures place { place self.new result.0 ≡ length self.old.objects }
        ensures len { length self.new.objects ≡ length self.old.objects + 1 }
    {
        let id = ObjId(self.made + 1);
        push_last(
            &mut self.objects,
            Object {
                id,
                rank,
                busy: false,
                holds: 0,
                ports: [PortState::Open; 4],
            },
        );
        self.keys.add(self.objects.len() - 1, id.0);
        self.made = id.0;
        id
    }

    pub(crate) fn take_out(&mut self, id: ObjId)
        requires { object_lives self.old id.0 ≡ true }
        ensures removes { Removes self.old self.new id.0 }
        ensures len { length self.new.objects + 1 ≡ length self.old.objects }
    {
        let at = self.place(id);
        let _gone = self.objects.remove(at);
        self.keys.remove(at);
    }
}

ghost use Rattle.std.specs.Prelude.{◌++◌, ◌∷◌, [], ◌≤◌, vec_len};
ghost use Rattle.std.specs.Vec.{vec_capacity};

fn push_last(objects: &mut Vec<Object>, object: Object)
    requires { vec_len objects.old < vec_capacity objects.old }
    ensures items { objects.new.items ≡ objects.old.items ++ object ∷ [] }
    ensures len { vec_len objects.new ≡ vec_len objects.old + 1 }
    ensures capacity { vec_capacity objects.old ≤ vec_capacity objects.new }
{
    match objects.push(object) {
        Ok(()) => {}
        Err(_) => unreachable!(),
    }
}
