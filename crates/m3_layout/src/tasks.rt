ghost use Rattle.std.specs.Prelude.{◌≡◌, ◌<◌, ◌++◌, ◌∷◌, [], OnOk};
ghost use Rattle.m3_layout.specs.Walking.{pending, IsWalk, total_effort};
ghost use Rattle.m3_layout.specs.declared.walk.Task.TheVariants.{OneValue, FieldsFrom, ElementsLeft};

use crate::copies::copy_run;
use crate::values::{array_parts, field_at, is_record, is_reference};
use crate::walk::{Task, Walk, Whole};
use m3_base::NoMemory;
use m3_types::TypeId;
use m3_types_sizes::SizedTypes;

impl Walk {
    /// Tells the pointers of a value, or begins with its parts.
    fn tell_value(&mut self, types: &SizedTypes, t: TypeId, at: u64) -> Result<(), NoMemory>
        requires { IsWalk types.now.graph.nodes.items self.old.offsets.items (self.old.tasks.items
            ++ OneValue t at ∷ []) self.old.runs }
        ensures walk { OnOk result (IsWalk types.now.graph.nodes.items self.new.offsets.items
            self.new.tasks.items self.new.runs) }
        ensures same { OnOk result (self.new.offsets.items
            ++ pending types.now.graph.nodes.items self.new.tasks.items
            ≡ self.old.offsets.items ++ pending types.now.graph.nodes.items (self.old.tasks.items
            ++ OneValue t at ∷ [])) }
        ensures less { OnOk result (total_effort types.now.graph.nodes.items self.new.tasks.items
            < total_effort types.now.graph.nodes.items (self.old.tasks.items
            ++ OneValue t at ∷ [])) }
    {
        if let Some(run) = self.runs.get(&t.0) {
            let run = *run;
            copy_run(&mut self.offsets, run, types.words_of(t), 1, at)?;
            return Ok(());
        }
        let whole = Whole {
            kind: t,
            at,
            start: self.offsets.len(),
        };
        if is_record(types, t) {
            self.tasks.push(Task::FieldsFrom(whole, 0, at))?;
            return Ok(());
        }
        if let Some((index, element)) = array_parts(types, t) {
            let count = types.graph.member_count(index);
            let rest = Task::ElementsLeft(whole, element, count, at);
            self.tasks.push(rest)?;
            return Ok(());
        }
        if is_reference(types, t) {
            self.offsets.push(at)?;
            self.close(types, whole)?;
            return Ok(());
        }
        self.close(types, whole)?;
        Ok(())
    }

    /// Begins with the next field of a record, or notes where its pointers stand.
    fn tell_fields(
        &mut self,
        types: &SizedTypes,
        whole: Whole,
        next: usize,
        at: u64,
    ) -> Result<(), NoMemory>
        requires { IsWalk types.now.graph.nodes.items self.old.offsets.items (self.old.tasks.items
            ++ FieldsFrom whole next at ∷ []) self.old.runs }
        ensures walk { OnOk result (IsWalk types.now.graph.nodes.items self.new.offsets.items
            self.new.tasks.items self.new.runs) }
        ensures same { OnOk result (self.new.offsets.items
            ++ pending types.now.graph.nodes.items self.new.tasks.items
            ≡ self.old.offsets.items ++ pending types.now.graph.nodes.items (self.old.tasks.items
            ++ FieldsFrom whole next at ∷ [])) }
        ensures less { OnOk result (total_effort types.now.graph.nodes.items self.new.tasks.items
            < total_effort types.now.graph.nodes.items (self.old.tasks.items
            ++ FieldsFrom whole next at ∷ [])) }
    {
        match field_at(types, whole.kind, next) {
            Some(kind) => {
                let after = at + types.words_of(kind);
                self.tasks.push(Task::FieldsFrom(whole, next + 1, after))?;
                self.tasks.push(Task::OneValue(kind, at))?;
                Ok(())
            }
            None => {
                self.close(types, whole)?;
                Ok(())
            }
        }
    }

    /// Begins with the next element of an array, or copies what the first one gave, or notes where
    /// the array's pointers stand.
    fn tell_elements(
        &mut self,
        types: &SizedTypes,
        whole: Whole,
        element: TypeId,
        left: u128,
        at: u64,
    ) -> Result<(), NoMemory>
        requires { IsWalk types.now.graph.nodes.items self.old.offsets.items (self.old.tasks.items
            ++ ElementsLeft whole element left at ∷ []) self.old.runs }
        ensures walk { OnOk result (IsWalk types.now.graph.nodes.items self.new.offsets.items
            self.new.tasks.items self.new.runs) }
        ensures same { OnOk result (self.new.offsets.items
            ++ pending types.now.graph.nodes.items self.new.tasks.items
            ≡ self.old.offsets.items ++ pending types.now.graph.nodes.items (self.old.tasks.items
            ++ ElementsLeft whole element left at ∷ [])) }
        ensures less { OnOk result (total_effort types.now.graph.nodes.items self.new.tasks.items
            < total_effort types.now.graph.nodes.items (self.old.tasks.items
            ++ ElementsLeft whole element left at ∷ [])) }
    {
        if left == 0 {
            self.close(types, whole)?;
            return Ok(());
        }
        let words = types.words_of(element);
        if let Some(run) = self.runs.get(&element.0) {
            let run = *run;
            copy_run(&mut self.offsets, run, words, left, at)?;
            self.tasks.push(Task::ElementsLeft(whole, element, 0, at))?;
            return Ok(());
        }
        self.tasks
            .push(Task::ElementsLeft(whole, element, left - 1, at + words))?;
        self.tasks.push(Task::OneValue(element, at))?;
        Ok(())
    }

    /// Carries out one task.
    pub(crate) fn tell(&mut self, types: &SizedTypes, task: Task) -> Result<(), NoMemory>
        requires { IsWalk types.now.graph.nodes.items self.old.offsets.items (self.old.tasks.items
            ++ task ∷ []) self.old.runs }
        ensures walk { OnOk result (IsWalk types.now.graph.nodes.items self.new.offsets.items
            self.new.tasks.items self.new.runs) }
        ensures same { OnOk result (self.new.offsets.items
            ++ pending types.now.graph.nodes.items self.new.tasks.items
            ≡ self.old.offsets.items ++ pending types.now.graph.nodes.items (self.old.tasks.items
            ++ task ∷ [])) }
        ensures less { OnOk result (total_effort types.now.graph.nodes.items self.new.tasks.items
            < total_effort types.now.graph.nodes.items (self.old.tasks.items ++ task ∷ [])) }
    {
        match task {
            Task::OneValue(t, at) => self.tell_value(types, t, at),
            Task::FieldsFrom(whole, next, at) => self.tell_fields(types, whole, next, at),
            Task::ElementsLeft(whole, element, left, at) => {
                self.tell_elements(types, whole, element, left, at)
            }
        }
    }
}
