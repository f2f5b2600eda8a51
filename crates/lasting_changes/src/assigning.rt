//! Codes that get another class, or another normal priority.
ghost use Rattle.std.specs.Prelude.{◌≡◌, ◌<◌, Some, length};
ghost use Rattle.model_system.specs.Lists.{change_at};
ghost use Rattle.model_machine.specs.Machine.{setting_place};
ghost use Rattle.model_machine.specs.LastingSteps.{classed_code, ranked_code};

use crate::stopping::code_place;
use model_machine::CodeSetting;
use tm_types::Name;

/// Gives the code of this name this class.
pub fn assign_class(codes: &mut Vec<CodeSetting>, name: &Name, class: u8)
    ensures { codes.new.items ≡ change_at codes.old.items (setting_place codes.old.items name.now) (classed_code class) }
{
    match code_place(codes, name) {
        Some(place) => assign_class_at(codes, place, class),
        None => {}
    }
}

fn assign_class_at(codes: &mut Vec<CodeSetting>, place: usize, class: u8)
    requires { place < length codes.old.items }
    ensures { codes.new.items ≡ change_at codes.old.items (Some place) (classed_code class) }
{
    note_class(&mut codes[place], class);
}

fn note_class(code: &mut CodeSetting, class: u8)
    ensures { code.new ≡ classed_code class code.old }
{
    code.class = class;
}

/// Gives the code of this name this normal priority.
pub fn assign_priority(codes: &mut Vec<CodeSetting>, name: &Name, priority: u8)
    ensures { codes.new.items ≡ change_at codes.old.items (setting_place codes.old.items name.now) (ranked_code priority) }
{
    match code_place(codes, name) {
        Some(place) => assign_priority_at(codes, place, priority),
        None => {}
    }
}

fn assign_priority_at(codes: &mut Vec<CodeSetting>, place: usize, priority: u8)
    requires { place < length codes.old.items }
    ensures { codes.new.items ≡ change_at codes.old.items (Some place) (ranked_code priority) }
{
    note_priority(&mut codes[place], priority);
}

fn note_priority(code: &mut CodeSetting, priority: u8)
    ensures { code.new ≡ ranked_code priority code.old }
{
    code.priority = priority;
}
