// The slots of a report, filled from the words and kinds of the nodes.
#![tactic(auto)]

ghost use Rattle.std.specs.Prelude.{◌≡◌, ℕ, ◌+◌, ◌<◌, ◌≤◌, eqb, length, get_or};
ghost use Rattle.layout.specs.Layout.{row_type, row_qualifier, nodes};
ghost use Rattle.model.specs.Machine.{Machine, param_in};
ghost use Rattle.model.specs.Inference.{ruling};
ghost use Rattle.model.specs.WellFormed.{WellFormed};
ghost use Rattle.readings.specs.Nodes.{kind_shape};
ghost use Rattle.report.specs.Codes.{shape_of_code};
ghost use Rattle.readings.specs.Programs.{Counted, Holds};
ghost use Rattle.slots.specs.Filling.{in_form, in_types, in_params, VariablesFilled, SlotsFilled};
ghost use Rattle.slots.specs.Filled.{Filled};

use layout::NODES;
use model::{PARAMS, Param, Program, TERMS, TYPES, TypeForm, TypeRow, VARIABLES};
use report::Codes;
use scheme::Standing;

// The mark of a variable that the report does not list: no word has this code. It is a byte as every code of `report::Codes` is.
const UNLISTED: u8 = 9;

// The shape's code of a kind.
fn shape_code(kind: u16) -> u8
    ensures { shape_of_code result ≡ kind_shape kind }
{
    match kind {
        0 => 2,
        1 => 0,
        _ => 1,
    }
}

// The shape's code of a type's node; past the nodes that of an unknown kind.
fn shape_at(kinds: &[u16], node: usize) -> u8
    ensures { shape_of_code result ≡ kind_shape (get_or kinds.now node 0) }
{
    if node < kinds.len() {
        return shape_code(kinds[node]);
    }
    2
}

// Fills the variable that a code names, if it names one: the codes from `first` on are the variables'.
fn fill_variable(code: u8, first: usize, words: &[u8; NODES], variables: &mut [u8; VARIABLES])
    requires { first ≤ 9 }
    ensures { VariablesFilled first (λ c. eqb c code) words.now variables.old variables.new }
{
    match scheme::stands_for(first as u8, code as u64) {
        Standing::Word(_) => {}
        Standing::Variable(k) => variables[k as usize] = words[k as usize + first],
        Standing::Nothing => {}
    }
}

// Fills the variables of a type row's form.
fn fill_variables_of_form(
    form: TypeForm,
    first: usize,
    words: &[u8; NODES],
    variables: &mut [u8; VARIABLES],
)
    requires { first ≤ 9 }
    ensures { VariablesFilled first (in_form form) words.now variables.old variables.new }
{
    match form {
        TypeForm::Int => {}
        TypeForm::Any => {}
        TypeForm::Arrow(argument, _, result, _) => {
            fill_variable(argument, first, words, variables);
            fill_variable(result, first, words, variables);
        }
    }
}

// Fills the variables of the type rows.
fn fill_variables_of_types(
    types: &[TypeRow],
    first: usize,
    words: &[u8; NODES],
    variables: &mut [u8; VARIABLES],
)
    requires { first ≤ 9 }
    ensures { VariablesFilled first (in_types types.now) words.now variables.old variables.new }
{
    for row in types {
        fill_variables_of_form(row.form, first, words, variables);
    }
}

// Fills the variables that are the present qualifiers of the parameters.
fn fill_variables_of_params(
    params: &[Param],
    first: usize,
    words: &[u8; NODES],
    variables: &mut [u8; VARIABLES],
)
    requires { first ≤ 9 }
    ensures { VariablesFilled first (in_params params.now) words.now variables.old variables.new }
{
    for param in params {
        fill_variable(param.qualifier, first, words, variables);
    }
}

// Fills the slots of the parameters.
fn fill_params(
    params: &[Param],
    words: &[u8; NODES],
    kinds: &[u16; NODES],
    paramwords: &mut [u8; PARAMS],
    paramshapes: &mut [u8; PARAMS],
)
    requires { length params.now ≤ 64 }
    ensures { SlotsFilled (length params.now) (λ p. (param_in params.now p).qualifier) (λ p. (param_in params.now p).typerow) words.now kinds.now paramwords.new paramshapes.new }
{
    for (p, param) in params.iter().enumerate() {
        paramwords[p] = words[param.qualifier as usize];
        paramshapes[p] = shape_at(kinds, param.typerow as usize);
    }
}

// Fills the slots of the first term rows.
fn fill_rows(
    count: usize,
    words: &[u8; NODES],
    kinds: &[u16; NODES],
    rowwords: &mut [u8; TERMS],
    rowshapes: &mut [u8; TERMS],
)
    requires { count ≤ 256 }
    ensures { SlotsFilled count (λ i. row_qualifier i) (λ i. row_type i) words.now kinds.now rowwords.new rowshapes.new }
{
    for i in 0..count {
        rowwords[i] = words[layout::row_qualifier(i)];
        rowshapes[i] = shape_at(kinds, layout::row_type(i));
    }
}

// The codes of every slot: a variable that stands in no type row and no parameter has UNLISTED.
pub fn fill(program: Program, first: usize, words: &[u8; NODES], kinds: &[u16; NODES]) -> Codes
    requires fact_1 { Counted program × (first ≤ 9) }
    requires fact_2 { ((x : ℕ) → x < nodes → get_or words.now x 0 < first) }
    ensures { (m : Machine) → (ruling m).words ≡ first → Holds m program → WellFormed m → Filled m (λ x. get_or words.now x 0) (λ x. get_or kinds.now x 0) result }
{
    // A slice of the program's own field would have the whole program copied.
    let types = program.types;
    let params = program.params;
    let types = &types[..program.typecount];
    let params = &params[..program.paramcount];
    let mut codes = Codes {
        variables: [UNLISTED; VARIABLES],
        paramwords: [0; PARAMS],
        paramshapes: [0; PARAMS],
        rowwords: [0; TERMS],
        rowshapes: [0; TERMS],
    };
    fill_variables_of_types(types, first, words, &mut codes.variables);
    fill_variables_of_params(params, first, words, &mut codes.variables);
    fill_params(
        params,
        words,
        kinds,
        &mut codes.paramwords,
        &mut codes.paramshapes,
    );
    fill_rows(
        program.termcount,
        words,
        kinds,
        &mut codes.rowwords,
        &mut codes.rowshapes,
    );
    codes
}
