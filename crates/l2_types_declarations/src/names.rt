// Declared names.
ghost use Rattle.std.specs.Prelude.{◌≡◌, length, option_map, IfOk};
ghost use Rattle.l2_types.specs.States.{saw};
ghost use Rattle.l2_types_declarations.specs.Names.{scalar_index, same_type, same_bool, all_same, same_types, same_signature, agrees, with_unknown, redeclared, is_main, is_main_type, unless_main_form, with_function, agreed, prototype, declare_function, may_stand, may_define, linked_at_file, target_of, defined, define, linked_to, declare_extern, stored, declare_as, type_meaning, with_function_type, declare_type};

use crate::types::{DeclaredType, Target};
use l2_bits::List;
use l2_syntax::{Place, Rule, Scalar};
use l2_tree::SpecifierWord;
use l2_tree_names::DeclaredName;
use l2_types::{CType, CheckError, Linked, Meaning, Signature, Table};

fn scalar_index(a: Scalar) -> u8
    ensures { result ≡ scalar_index a }
{
    match a {
        Scalar::Bool => 0,
        Scalar::Char => 1,
        Scalar::UChar => 2,
        Scalar::Short => 3,
        Scalar::UShort => 4,
        Scalar::Int => 5,
        Scalar::UInt => 6,
        Scalar::Long => 7,
        Scalar::ULong => 8,
        Scalar::LongLong => 9,
        Scalar::ULongLong => 10,
    }
}

/// Whether two types are equal; `long` and `long long` aren't.
fn same_type(t: CType, u: CType) -> bool
    ensures { result ≡ same_type t u }
{
    match t {
        CType::Void => match u {
            CType::Void => true,
            CType::Integer(_) => false,
        },
        CType::Integer(a) => match u {
            CType::Void => false,
            CType::Integer(b) => scalar_index(a) == scalar_index(b),
        },
    }
}

fn same_bool(a: bool, b: bool) -> bool
    ensures { result ≡ same_bool a b }
{
    if a { b } else { !b }
}

/// Whether each type equals the one at its place among others.
fn all_same(ts: &[CType], us: &[CType]) -> bool
    ensures { result ≡ all_same ts.now us.now }
{
    let mut i = 0;
    for t in ts {
        if i >= us.len() {
            return true;
        }
        if !same_type(*t, us[i]) {
            return false;
        }
        i += 1;
    }
    true
}

fn same_types(ts: &[CType], us: &[CType]) -> bool
    ensures { result ≡ same_types ts.now us.now }
{
    ts.len() == us.len() && all_same(ts, us)
}

/// Whether a prototype agrees with one of before.
fn same_signature(g: Option<&Signature>, t: CType, is_const: bool, parameters: &[CType]) -> bool
    ensures { result ≡ same_signature (option_map (λ r. r.now) g.entry) t is_const parameters.now }
{
    match g {
        None => false,
        Some(g) => {
            same_type(g.result, t)
                && same_bool(g.is_const, is_const)
                && same_types(g.parameters.as_slice(), parameters)
        }
    }
}

/// Whether the declarations of a variable of file scope have this type.
fn agrees(linked: &[Linked], name: u32, t: CType, is_const: bool) -> bool
    ensures { result ≡ agrees linked.now name t is_const }
{
    for l in linked {
        if l.name == name && !(same_type(l.of, t) && same_bool(l.is_const, is_const)) {
            return false;
        }
    }
    true
}

/// A name whose declaration is at fault raises no fault where it is used.
pub fn with_unknown(table: &mut Table, nm: DeclaredName) -> Result<(), CheckError>
    ensures ok { IfOk result (λ u. table.new ≡ with_unknown nm table.old) }
{
    if table.is_taken(nm.name) {
        return Ok(());
    }
    table.with_entry(nm.name, Meaning::Unknown)
}

pub fn redeclared(table: &mut Table, nm: DeclaredName) -> Result<Target, CheckError>
    ensures ok { IfOk result (λ t. redeclared nm table.old ≡ saw t table.new) }
{
    table.fault(nm.place, Rule::Redeclared)?;
    Ok(Target::Nothing)
}

fn is_main(main: Option<u32>, name: u32) -> bool
    ensures { result ≡ is_main main name }
{
    match main {
        None => false,
        Some(m) => m == name,
    }
}

/// Whether a function's type is that of `main`.
fn is_main_type(t: CType, parameters: &[CType]) -> bool
    ensures { result ≡ is_main_type t parameters.now }
{
    match t {
        CType::Integer(Scalar::Int) => parameters.is_empty(),
        _ => false,
    }
}

/// `main-form`, where a declaration of `main` at file scope hasn't its form.
fn unless_main_form(table: &mut Table, fits: bool, nm: DeclaredName) -> Result<(), CheckError>
    ensures ok { IfOk result (λ u. table.new ≡ unless_main_form fits nm table.old) }
{
    if is_main(table.main(), nm.name) && table.level() == 0 && !fits {
        return table.fault(nm.place, Rule::MainForm);
    }
    Ok(())
}

/// The place that the next signature has.
fn signature_count(table: &Table) -> Result<u32, CheckError>
    ensures ok { IfOk result (λ n. n ≡ length table.now.functions) }
{
    let count = table.functions().len();
    if count > u32::MAX as usize {
        return Err(CheckError::NoMemory);
    }
    Ok(count as u32)
}

/// A function is declared for the first time.
fn with_function(
    table: &mut Table,
    nm: DeclaredName,
    t: CType,
    is_const: bool,
    parameters: List<CType>,
) -> Result<(), CheckError>
    ensures ok { IfOk result (λ u. table.new ≡ with_function nm t is_const parameters table.old) }
{
    let number = table.function_number(nm.name)?;
    let place = signature_count(table)?;
    table.with_entry(nm.name, Meaning::Function(place))?;
    table.with_signature(Signature {
        number,
        result: t,
        is_const,
        parameters,
        is_defined: number != 0,
    })
}

/// A prototype of a name with a meaning in its scope.
fn agreed(
    table: &mut Table,
    meaning: Option<Meaning>,
    nm: DeclaredName,
    t: CType,
    is_const: bool,
    parameters: List<CType>,
) -> Result<(), CheckError>
    ensures ok { IfOk result (λ u. table.new ≡ agreed meaning nm t is_const parameters table.old) }
{
    match meaning {
        None => with_function(table, nm, t, is_const, parameters),
        Some(Meaning::Function(g)) => {
            let agree = same_signature(
                table.functions().get(g as usize),
                t,
                is_const,
                parameters.as_slice(),
            );
            if agree {
                return Ok(());
            }
            table.fault(nm.place, Rule::Redeclared)
        }
        Some(_) => table.fault(nm.place, Rule::Redeclared),
    }
}

/// A prototype at file scope.
pub fn prototype(
    table: &mut Table,
    nm: DeclaredName,
    t: CType,
    is_const: bool,
    parameters: List<CType>,
) -> Result<(), CheckError>
    ensures ok { IfOk result (λ u. table.new ≡ prototype nm t is_const parameters table.old) }
{
    let fits = is_main_type(t, parameters.as_slice());
    unless_main_form(table, fits, nm)?;
    let meaning = table.meaning_here(nm.name);
    agreed(table, meaning, nm, t, is_const, parameters)
}

/// A prototype, which may stand at file scope alone.
fn declare_function(
    table: &mut Table,
    nm: DeclaredName,
    t: CType,
    is_const: bool,
    parameters: List<CType>,
) -> Result<(), CheckError>
    ensures ok { IfOk result (λ u. table.new ≡ declare_function nm t is_const parameters table.old) }
{
    if table.level() == 0 {
        return prototype(table, nm, t, is_const, parameters);
    }
    table.fault(nm.place, Rule::BadType)?;
    with_unknown(table, nm)
}

fn may_stand(level: u32, meaning: Option<Meaning>) -> bool
    ensures { result ≡ may_stand level meaning }
{
    match meaning {
        None => true,
        Some(Meaning::Object(_, _, _)) => level == 0,
        Some(_) => false,
    }
}

/// Whether a variable may be defined here.
fn may_define(table: &Table, name: u32, t: CType, is_const: bool) -> bool
    ensures { result ≡ may_define name t is_const table.now }
{
    may_stand(table.level(), table.meaning_here(name))
        && (!(table.level() == 0)
            || !table.has_variable(name) && agrees(table.linked(), name, t, is_const))
}

fn linked_at_file(table: &mut Table, name: u32, t: CType, is_const: bool) -> Result<(), CheckError>
    ensures ok { IfOk result (λ u. table.new ≡ linked_at_file name t is_const table.old) }
{
    if table.level() == 0 {
        return table.with_linked(name, t, is_const);
    }
    Ok(())
}

fn target_of(is_static: bool, object: u32, a: Scalar) -> Target
    ensures { result ≡ target_of is_static object a }
{
    if is_static {
        Target::Permanent(object, a)
    } else {
        Target::Automatic(object, a)
    }
}

#[tactic(auto, using(l2_types::proofs::Steps::steps))]
fn defined(
    table: &mut Table,
    is_static: bool,
    nm: DeclaredName,
    a: Scalar,
    is_const: bool,
) -> Result<Target, CheckError>
    ensures ok { IfOk result (λ t. defined is_static nm a is_const table.old ≡ saw t table.new) }
{
    let t = CType::Integer(a);
    let object = table.new_object(nm.name, nm.place, t, is_static)?;
    table.with_entry(nm.name, Meaning::Object(object, t, is_const))?;
    linked_at_file(table, nm.name, t, is_const)?;
    Ok(target_of(is_static, object, a))
}

/// The definition of a variable.
fn define(
    table: &mut Table,
    is_static: bool,
    nm: DeclaredName,
    a: Scalar,
    is_const: bool,
) -> Result<Target, CheckError>
    ensures ok { IfOk result (λ t. define is_static nm a is_const table.old ≡ saw t table.new) }
{
    if may_define(table, nm.name, CType::Integer(a), is_const) {
        return defined(table, is_static, nm, a, is_const);
    }
    redeclared(table, nm)
}

fn linked_to(
    table: &mut Table,
    object: Option<u32>,
    nm: DeclaredName,
    t: CType,
    is_const: bool,
) -> Result<Target, CheckError>
    ensures ok { IfOk result (λ r. linked_to object nm t is_const table.old ≡ saw r table.new) }
{
    match object {
        None => {
            with_unknown(table, nm)?;
            redeclared(table, nm)
        }
        Some(object) => {
            table.with_entry(nm.name, Meaning::Object(object, t, is_const))?;
            table.with_linked(nm.name, t, is_const)?;
            table.name(object)?;
            Ok(Target::Nothing)
        }
    }
}

/// An `extern` declaration of a variable.
fn declare_extern(
    table: &mut Table,
    nm: DeclaredName,
    t: CType,
    is_const: bool,
) -> Result<Target, CheckError>
    ensures ok { IfOk result (λ r. declare_extern nm t is_const table.old ≡ saw r table.new) }
{
    if may_stand(table.level(), table.meaning_here(nm.name))
        && agrees(table.linked(), nm.name, t, is_const)
    {
        let object = table.variable(nm.name)?;
        return linked_to(table, object, nm, t, is_const);
    }
    redeclared(table, nm)
}

/// A variable with its word of storage, and whether it has an initialiser.
fn stored(
    table: &mut Table,
    word: Option<SpecifierWord>,
    is_initialised: bool,
    nm: DeclaredName,
    a: Scalar,
    is_const: bool,
) -> Result<Target, CheckError>
    ensures ok { IfOk result (λ r. stored word is_initialised nm a is_const table.old ≡ saw r table.new) }
{
    match word {
        Some(SpecifierWord::Extern) => {
            if !is_initialised {
                declare_extern(table, nm, CType::Integer(a), is_const)
            } else if table.level() == 0 {
                define(table, true, nm, a, is_const)
            } else {
                redeclared(table, nm)
            }
        }
        Some(SpecifierWord::Static) => define(table, true, nm, a, is_const),
        _ => {
            let is_static = table.level() == 0;
            define(table, is_static, nm, a, is_const)
        }
    }
}

/// A declared name, by its type.
pub fn declare_as(
    table: &mut Table,
    word: Option<SpecifierWord>,
    is_initialised: bool,
    nm: DeclaredName,
    t: DeclaredType,
    place: Place,
) -> Result<Target, CheckError>
    ensures ok { IfOk result (λ r. declare_as word is_initialised nm t place table.old ≡ saw r table.new) }
{
    match t {
        DeclaredType::Unknown => {
            with_unknown(table, nm)?;
            Ok(Target::Nothing)
        }
        DeclaredType::Object(t, is_const) => match t {
            CType::Void => {
                table.fault(place, Rule::BadType)?;
                with_unknown(table, nm)?;
                Ok(Target::Nothing)
            }
            CType::Integer(a) => {
                unless_main_form(table, false, nm)?;
                stored(table, word, is_initialised, nm, a, is_const)
            }
        },
        DeclaredType::Function(t, is_const, parameters) => {
            declare_function(table, nm, t, is_const, parameters)?;
            Ok(Target::Function)
        }
    }
}

/// What the name of a type stands for.
fn type_meaning(table: &Table, t: &DeclaredType) -> Result<Meaning, CheckError>
    ensures ok { IfOk result (λ m. m ≡ type_meaning t.now table.now) }
{
    match t {
        DeclaredType::Unknown => Ok(Meaning::Unknown),
        DeclaredType::Object(t, is_const) => Ok(Meaning::TypeName(*t, *is_const)),
        DeclaredType::Function(_, _, _) => Ok(Meaning::FunctionType(signature_count(table)?)),
    }
}

fn with_function_type(table: &mut Table, t: DeclaredType) -> Result<(), CheckError>
    ensures ok { IfOk result (λ u. table.new ≡ with_function_type t table.old) }
{
    match t {
        DeclaredType::Function(t, is_const, parameters) => {
            table.with_signature(Signature {
                number: 0,
                result: t,
                is_const,
                parameters,
                is_defined: false,
            })
        }
        DeclaredType::Unknown | DeclaredType::Object(_, _) => Ok(()),
    }
}

/// A name of a type.
pub fn declare_type(table: &mut Table, nm: DeclaredName, t: DeclaredType) -> Result<(), CheckError>
    ensures ok { IfOk result (λ u. table.new ≡ declare_type nm t table.old) }
{
    let meaning = type_meaning(table, &t)?;
    table.declare(nm.name, nm.place, meaning)?;
    with_function_type(table, t)
}
