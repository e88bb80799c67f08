// What is known while a text is looked at, and what was found.
ghost use Rattle.std.specs.Prelude.{◌≡◌, true, None, length, take, IfOk};
ghost use Rattle.l2_types.specs.States.{saw, lookup, lookup_from, with_fault, with_use, with_call, kind_number, check_from};
ghost use Rattle.l2_types.specs.Meant.{checked};
ghost use Rattle.l2_types.specs.Scopes.{entered, is_builtin, has_name, has_tag, is_taken, with_entry, with_outer_entry, declare, with_tag, define_tag};
ghost use Rattle.std.specs.Prelude.{◌+◌, drop};
ghost use Rattle.l2_types.specs.Founds.{start, object_at, place_of, variable, number_from, function_number, has, meaning_from, meaning_here, with_signature, with_linked, unless_full, with_object, new_object, has_variable, with_static, with_met, inside_function, outside_functions, new_loop, with_label};
ghost use Rattle.l2_types.specs.Wants.{callable, parameter, wanted_by_function, wanted_by_builtin, wanted};
ghost use Rattle.l2_types.specs.Switches.{jump, contains, also_value, with_value, the_default, begun};

use crate::error::CheckError;
use crate::state::{
    Builtin, Callable, CheckSite, Entry, Linked, LoopEntry, Meaning, Named, ObjectEntry, Signature,
    Site, TagEntry, Want,
};
use crate::types::CType;
use l2_program::{CheckInfo, StaticValue};
use l2_runs::Kind;
use l2_syntax::{Place, Refusal, Rule, Scalar};
use std::alloc::Global;
use std::marker::Model;

/// The names in scope, and the faults, checks, calls and uses of the text so far.
#[derive(Drop)]
pub struct Table {
    scope: Vec<Entry>,
    tags: Vec<TagEntry>,
    level: u32,
    functions: Vec<Signature>,
    linked: Vec<Linked>,
    overflow: bool,
    numbers: Vec<CheckInfo>,
    places: Vec<Place>,
    defined: Vec<u32>,
    variables: Vec<Named>,
    main: Option<u32>,
    function: u32,
    faults: Vec<Refusal>,
    checks: Vec<CheckSite>,
    calls: Vec<Site>,
    uses: Vec<u32>,
    objects: Vec<ObjectEntry>,
    statics: Vec<StaticValue>,
    loops: Vec<LoopEntry>,
    met: Vec<u32>,
    labels: Vec<u32>,
    values: Vec<i128>,
    has_default: bool,
    has_declared: bool,
}

/// What was known of the switch that stands round.
#[derive(Drop)]
pub struct Outer {
    pub values: Vec<i128>,
    pub has_default: bool,
    pub has_declared: bool,
}

/// What was found in a text: its objects, the values of static ones, and its loops.
#[derive(Drop)]
pub struct Found {
    pub objects: Vec<ObjectEntry>,
    pub statics: Vec<StaticValue>,
    pub loops: Vec<LoopEntry>,
}

/// How much stood round a scope when it began.
#[derive(Clone, Copy)]
pub struct Scope {
    pub names: usize,
    pub tags: usize,
    pub level: u32,
}

impl Model for Table {
    ghost use Rattle.l2_types.specs.States.{State};

    ghost Value = { State };

    ghost view = { λ t. record {
      scope = t.scope.items;
      tags = t.tags.items;
      level = t.level;
      functions = t.functions.items;
      linked = t.linked.items;
      overflow = t.overflow;
      numbers = t.numbers.items;
      places = t.places.items;
      defined = t.defined.items;
      variables = t.variables.items;
      main = t.main;
      function = t.function;
      faults = t.faults.items;
      checks = t.checks.items;
      calls = t.calls.items;
      uses = t.uses.items;
      objects = t.objects.items;
      statics = t.statics.items;
      loops = t.loops.items;
      met = t.met.items;
      labels = t.labels.items;
      values = t.values.items;
      has_default = t.has_default;
      has_declared = t.has_declared;
    } };
}

impl Table {
    /// A table for a text that wasn't looked at: its checks and the places of its objects as far as they are known, and
    /// what it defines at file scope, and the number of the name `main`, where the text has it.
    pub fn new(
        alloc: Global,
        overflow: bool,
        numbers: Vec<CheckInfo>,
        places: Vec<Place>,
        defined: Vec<u32>,
        variables: Vec<Named>,
        main: Option<u32>,
    ) -> Table
        ensures { result ≡ start overflow numbers.items places.items defined.items variables.items main }
    {
        Table {
            scope: Vec::new(alloc),
            tags: Vec::new(alloc),
            level: 0,
            functions: Vec::new(alloc),
            linked: Vec::new(alloc),
            overflow,
            numbers,
            places,
            defined,
            variables,
            main,
            function: 0,
            faults: Vec::new(alloc),
            checks: Vec::new(alloc),
            calls: Vec::new(alloc),
            uses: Vec::new(alloc),
            objects: Vec::new(alloc),
            statics: Vec::new(alloc),
            loops: Vec::new(alloc),
            met: Vec::new(alloc),
            labels: Vec::new(alloc),
            values: Vec::new(alloc),
            has_default: false,
            has_declared: false,
        }
    }

    /// What a name stands for.
    pub fn lookup(&self, name: u32) -> Option<Meaning>
        ensures { result ≡ lookup self.now name }
    {
        lookup_in(&self.scope, name)
    }

    pub fn overflow(&self) -> bool
        ensures { result ≡ self.now.overflow }
    {
        self.overflow
    }

    /// The faults so far.
    pub fn faults(&self) -> &[Refusal]
        ensures { result.now ≡ self.now.faults }
    {
        self.faults.as_slice()
    }

    pub fn fault(&mut self, place: Place, rule: Rule) -> Result<(), CheckError>
        ensures ok { IfOk result (λ u. self.new ≡ with_fault place rule self.old) }
    {
        self.faults.push(Refusal { place, rule })?;
        Ok(())
    }

    pub fn name(&mut self, object: u32) -> Result<(), CheckError>
        ensures ok { IfOk result (λ u. self.new ≡ with_use object self.old) }
    {
        self.uses.push(object)?;
        Ok(())
    }

    pub fn call(&mut self, function: u32, place: Place) -> Result<(), CheckError>
        ensures ok { IfOk result (λ u. self.new ≡ with_call function place self.old) }
    {
        let caller = self.function;
        self.calls.push(Site {
            caller,
            function,
            place,
        })?;
        Ok(())
    }

    /// The number of a check that an operator may make.
    pub fn checked(&mut self, kind: Option<Kind>, place: Place) -> Result<u32, CheckError>
        ensures ok { IfOk result (λ n. checked kind place self.old ≡ saw n self.new) }
    {
        match kind {
            Some(kind) => {
                let number = number_of(&self.numbers, place, kind)?;
                let function = self.function;
                self.checks.push(CheckSite {
                    function,
                    place,
                    kind,
                })?;
                Ok(number)
            }
            None => Ok(0),
        }
    }

    /// What a call with this many arguments needs to know of a function.
    pub fn callable(&self, function: u32, count: usize) -> Option<Callable>
        ensures { result ≡ callable self.now function count }
    {
        match self.functions.get(function as usize) {
            Some(g) => Some(Callable {
                number: g.number,
                result: g.result,
                fits: g.is_defined && g.parameters.as_slice().len() == count,
            }),
            None => None,
        }
    }

    /// What a function with this many arguments asks of one of them.
    pub fn wanted_by_function(&self, function: u32, count: usize, i: usize) -> Want
        ensures { result ≡ wanted_by_function self.now function count i }
    {
        match self.functions.get(function as usize) {
            Some(g) => parameter(g.parameters.as_slice(), count, i),
            None => Want::Anything,
        }
    }

    /// What a call asks of one of its arguments.
    pub fn wanted(&self, meaning: Option<Meaning>, count: usize, i: usize) -> Want
        ensures { result ≡ wanted self.now meaning count i }
    {
        match meaning {
            Some(Meaning::Function(f)) => self.wanted_by_function(f, count, i),
            Some(Meaning::Builtin(b)) => wanted_by_builtin(b, count),
            _ => Want::Anything,
        }
    }

    /// A scope begins.
    pub fn enter(&mut self) -> Result<Scope, CheckError>
        ensures ok { IfOk result (λ r. self.new ≡ entered self.old) }
        ensures names { IfOk result (λ r. r.names ≡ length self.old.scope) }
        ensures tags { IfOk result (λ r. r.tags ≡ length self.old.tags) }
        ensures level { IfOk result (λ r. r.level ≡ self.old.level) }
    {
        let outer = Scope {
            names: self.scope.len(),
            tags: self.tags.len(),
            level: self.level,
        };
        if self.level == u32::MAX {
            return Err(CheckError::NoMemory);
        }
        self.level += 1;
        Ok(outer)
    }

    /// How much stands round the innermost scope, and in it.
    pub fn scope(&self) -> Scope
        ensures names { result.names ≡ length self.now.scope }
        ensures tags { result.tags ≡ length self.now.tags }
        ensures level { result.level ≡ self.now.level }
    {
        Scope {
            names: self.scope.len(),
            tags: self.tags.len(),
            level: self.level,
        }
    }

    /// A scope ends.
    pub fn leave(&mut self, outer: Scope)
        ensures { self.new ≡ record self.old { scope = take outer.names self.old.scope; tags = take outer.tags self.old.tags; level = outer.level } }
    {
        self.scope.truncate(outer.names);
        self.tags.truncate(outer.tags);
        self.level = outer.level;
    }

    /// Whether a name may not be declared here.
    pub fn is_taken(&self, name: u32) -> bool
        ensures { result ≡ is_taken self.now name }
    {
        is_builtin(self.lookup(name)) || has_name(self.level, &self.scope, name)
    }

    /// A name stands for something in the innermost scope from here on.
    pub fn with_entry(&mut self, name: u32, meaning: Meaning) -> Result<(), CheckError>
        ensures ok { IfOk result (λ u. self.new ≡ with_entry name meaning self.old) }
    {
        let level = self.level;
        self.scope.push(Entry {
            name,
            level,
            meaning,
        })?;
        Ok(())
    }

    /// A name stands for something in a scope round that of the file.
    pub fn with_outer_entry(&mut self, name: u32, meaning: Meaning) -> Result<(), CheckError>
        ensures ok { IfOk result (λ u. self.new ≡ with_outer_entry name meaning self.old) }
    {
        self.scope.push(Entry {
            name,
            level: u32::MAX,
            meaning,
        })?;
        Ok(())
    }

    /// A name is declared; `redeclared` where it is taken.
    pub fn declare(&mut self, name: u32, place: Place, meaning: Meaning) -> Result<(), CheckError>
        ensures ok { IfOk result (λ u. self.new ≡ declare name place meaning self.old) }
    {
        if self.is_taken(name) {
            return self.fault(place, Rule::Redeclared);
        }
        self.with_entry(name, meaning)
    }

    fn with_tag(&mut self, name: u32) -> Result<(), CheckError>
        ensures ok { IfOk result (λ u. self.new ≡ with_tag name self.old) }
    {
        let level = self.level;
        self.tags.push(TagEntry { name, level })?;
        Ok(())
    }

    /// The enum of a tag is defined; `redeclared` where the innermost scope has it.
    pub fn define_tag(&mut self, name: u32, place: Place) -> Result<(), CheckError>
        ensures ok { IfOk result (λ u. self.new ≡ define_tag name place self.old) }
    {
        if has_tag(self.level, &self.tags, name) {
            return self.fault(place, Rule::Redeclared);
        }
        self.with_tag(name)
    }

    /// The number of the name `main`.
    pub fn main(&self) -> Option<u32>
        ensures { result ≡ self.now.main }
    {
        self.main
    }

    /// How many scopes stand round the innermost one.
    pub fn level(&self) -> u32
        ensures { result ≡ self.now.level }
    {
        self.level
    }

    /// What a name stands for in the innermost scope.
    pub fn meaning_here(&self, name: u32) -> Option<Meaning>
        ensures { result ≡ meaning_here self.now name }
    {
        meaning_in(self.level, &self.scope, name)
    }

    /// The functions that were declared.
    pub fn functions(&self) -> &[Signature]
        ensures { result.now ≡ self.now.functions }
    {
        self.functions.as_slice()
    }

    pub fn with_signature(&mut self, signature: Signature) -> Result<(), CheckError>
        ensures ok { IfOk result (λ u. self.new ≡ with_signature signature self.old) }
    {
        self.functions.push(signature)?;
        Ok(())
    }

    /// The variables of file scope that were declared.
    pub fn linked(&self) -> &[Linked]
        ensures { result.now ≡ self.now.linked }
    {
        self.linked.as_slice()
    }

    /// A variable of file scope was declared.
    pub fn with_linked(&mut self, name: u32, of: CType, is_const: bool) -> Result<(), CheckError>
        ensures ok { IfOk result (λ u. self.new ≡ with_linked name of is_const self.old) }
    {
        self.linked.push(Linked { name, of, is_const })?;
        Ok(())
    }

    /// The number of the variable of this name that the text defines at file scope.
    pub fn variable(&self, name: u32) -> Result<Option<u32>, CheckError>
        ensures ok { IfOk result (λ o. o ≡ variable self.now name) }
    {
        match place_of(&self.variables, name) {
            Some(place) => Ok(Some(object_at(&self.places, place)?)),
            None => Ok(None),
        }
    }

    /// The number of the function of this name; 0 where the text doesn't define it.
    pub fn function_number(&self, name: u32) -> Result<u32, CheckError>
        ensures ok { IfOk result (λ n. n ≡ function_number self.now name) }
    {
        number_in(&self.defined, name)
    }

    fn with_object(
        &mut self,
        name: u32,
        place: Place,
        of: CType,
        is_static: bool,
    ) -> Result<(), CheckError>
        ensures ok { IfOk result (λ u. self.new ≡ with_object name place of is_static self.old) }
    {
        let function = self.function;
        self.objects.push(ObjectEntry {
            name,
            place,
            of,
            is_static,
            function,
        })?;
        Ok(())
    }

    fn unless_full(&mut self, place: Place) -> Result<(), CheckError>
        ensures ok { IfOk result (λ u. self.new ≡ unless_full place self.old) }
    {
        if self.objects.len() == 65537 {
            return self.fault(place, Rule::Cells);
        }
        Ok(())
    }

    /// A new object, and its number; `cells` where there are too many.
    pub fn new_object(
        &mut self,
        name: u32,
        place: Place,
        of: CType,
        is_static: bool,
    ) -> Result<u32, CheckError>
        ensures ok { IfOk result (λ n. new_object name place of is_static self.old ≡ saw n self.new) }
    {
        let number = number_behind(self.objects.len())?;
        self.with_object(name, place, of, is_static)?;
        self.unless_full(place)?;
        Ok(number)
    }

    /// The objects so far.
    pub fn objects(&self) -> &[ObjectEntry]
        ensures { result.now ≡ self.now.objects }
    {
        self.objects.as_slice()
    }

    /// Whether a variable of this name was defined at file scope before.
    pub fn has_variable(&self, name: u32) -> bool
        ensures { result ≡ has_variable self.now.objects name }
    {
        has_variable(&self.objects, name)
    }

    /// What a cell of a static object holds at the start.
    pub fn with_static(&mut self, value: StaticValue) -> Result<(), CheckError>
        ensures ok { IfOk result (λ u. self.new ≡ with_static value self.old) }
    {
        self.statics.push(value)?;
        Ok(())
    }

    /// How many functions the text defines.
    pub fn defined_count(&self) -> usize
        ensures { result ≡ length self.now.defined }
    {
        self.defined.len()
    }

    /// The calls so far.
    pub fn calls(&self) -> &[Site]
        ensures { result.now ≡ self.now.calls }
    {
        self.calls.as_slice()
    }

    /// The checks so far.
    pub fn checks(&self) -> &[CheckSite]
        ensures { result.now ≡ self.now.checks }
    {
        self.checks.as_slice()
    }

    /// The objects, the values of static ones, and the loops of the text.
    pub fn into_found(self) -> Found
        ensures objects { result.objects.items ≡ self.objects }
        ensures statics { result.statics.items ≡ self.statics }
        ensures loops { result.loops.items ≡ self.loops }
    {
        let Table {
            objects,
            statics,
            loops,
            ..
        } = self;
        Found {
            objects,
            statics,
            loops,
        }
    }

    /// Whether a function's definition was met.
    pub fn is_met(&self, name: u32) -> bool
        ensures { result ≡ has self.now.met name }
    {
        has(&self.met, name)
    }

    pub fn with_met(&mut self, name: u32) -> Result<(), CheckError>
        ensures ok { IfOk result (λ u. self.new ≡ with_met name self.old) }
    {
        self.met.push(name)?;
        Ok(())
    }

    /// The function of this number begins.
    pub fn inside_function(&mut self, number: u32)
        ensures { self.new ≡ inside_function number self.old }
    {
        self.function = number;
        self.labels.clear();
    }

    /// A function ends.
    pub fn outside_functions(&mut self)
        ensures { self.new ≡ outside_functions self.old }
    {
        self.function = 0;
    }

    /// A loop, and its number.
    pub fn new_loop(&mut self, place: Place) -> Result<u32, CheckError>
        ensures ok { IfOk result (λ n. new_loop place self.old ≡ saw n self.new) }
    {
        let number = number_behind(self.loops.len())?;
        let function = self.function;
        let objects = count_of(self.objects.len())?;
        self.loops.push(LoopEntry {
            place,
            function,
            objects,
        })?;
        Ok(number)
    }

    /// How many uses of objects there are.
    pub fn uses(&self) -> usize
        ensures { result ≡ length self.now.uses }
    {
        self.uses.len()
    }

    /// The objects that are named behind the first uses.
    pub fn named_from(&self, alloc: Global, mark: usize) -> Result<Vec<u32>, CheckError>
        ensures ok { IfOk result (λ v. v.items ≡ drop mark self.now.uses) }
    {
        Ok(rest_of(&self.uses, mark).to_vec(alloc)?)
    }

    /// A label; `label` where the function has it already.
    pub fn with_label(&mut self, name: u32, place: Place) -> Result<(), CheckError>
        ensures ok { IfOk result (λ u. self.new ≡ with_label name place self.old) }
    {
        if has(&self.labels, name) {
            return self.fault(place, Rule::Label);
        }
        self.labels.push(name)?;
        Ok(())
    }

    /// `switch-jump`, where a declaration stood before.
    pub fn jump(&mut self, place: Place) -> Result<(), CheckError>
        ensures ok { IfOk result (λ u. self.new ≡ jump place self.old) }
    {
        if self.has_declared {
            return self.fault(place, Rule::SwitchJump);
        }
        Ok(())
    }

    /// A value of a `case`; `label` where it stood before.
    pub fn with_value(&mut self, place: Place, v: i128) -> Result<(), CheckError>
        ensures ok { IfOk result (λ u. self.new ≡ with_value place v self.old) }
    {
        if contains(&self.values, v) {
            self.fault(place, Rule::Label)?;
            return self.also_value(v);
        }
        self.also_value(v)
    }

    fn also_value(&mut self, v: i128) -> Result<(), CheckError>
        ensures ok { IfOk result (λ u. self.new ≡ also_value v self.old) }
    {
        self.values.push(v)?;
        Ok(())
    }

    /// A `default`; `label` where one stood before.
    pub fn the_default(&mut self, place: Place) -> Result<(), CheckError>
        ensures ok { IfOk result (λ u. self.new ≡ the_default place self.old) }
    {
        if self.has_default {
            return self.fault(place, Rule::Label);
        }
        self.has_default = true;
        Ok(())
    }

    /// A declaration stands in the switch's block.
    pub fn declared_here(&mut self)
        ensures { self.new ≡ record self.old { has_declared = true } }
    {
        self.has_declared = true;
    }

    /// A switch begins. What was known of the one round it is handed out.
    pub fn begin_switch(&mut self, alloc: Global) -> Outer
        ensures new { self.new ≡ begun self.old }
        ensures values { result.values.items ≡ self.old.values }
        ensures has_default { result.has_default ≡ self.old.has_default }
        ensures has_declared { result.has_declared ≡ self.old.has_declared }
    {
        let values = std::mem::replace(&mut self.values, Vec::new(alloc));
        let outer = Outer {
            values,
            has_default: self.has_default,
            has_declared: self.has_declared,
        };
        self.has_default = false;
        self.has_declared = false;
        outer
    }

    /// A switch ends.
    pub fn end_switch(&mut self, outer: Outer)
        ensures { self.new ≡ record self.old { values = outer.values.items; has_default = outer.has_default; has_declared = outer.has_declared } }
    {
        let Outer {
            values,
            has_default,
            has_declared,
        } = outer;
        self.values = values;
        self.has_default = has_default;
        self.has_declared = has_declared;
    }

    /// How many checks and calls there are.
    pub fn mark(&self) -> (usize, usize)
        ensures checks { result.0 ≡ length self.now.checks }
        ensures calls { result.1 ≡ length self.now.calls }
    {
        (self.checks.len(), self.calls.len())
    }

    /// Takes the checks and calls behind the first ones away.
    pub fn forget(&mut self, mark: (usize, usize))
        ensures { self.new ≡ record self.old { checks = take mark.0 self.old.checks; calls = take mark.1 self.old.calls } }
    {
        self.checks.truncate(mark.0);
        self.calls.truncate(mark.1);
    }
}

/// What stands behind the first few.
fn rest_of(all: &[u32], mark: usize) -> &[u32]
    ensures { result.now ≡ drop mark all.now }
{
    if mark < all.len() { &all[mark..] } else { &[] }
}

/// A length as a number. More than a `u32` counts is want of memory.
fn count_of(n: usize) -> Result<u32, CheckError>
    ensures ok { IfOk result (λ r. r ≡ n) }
{
    if n > u32::MAX as usize {
        return Err(CheckError::NoMemory);
    }
    Ok(n as u32)
}

/// The number of what stands behind this many.
fn number_behind(n: usize) -> Result<u32, CheckError>
    ensures ok { IfOk result (λ r. r ≡ n + 1) }
{
    let count = count_of(n)?;
    if count == u32::MAX {
        return Err(CheckError::NoMemory);
    }
    Ok(count + 1)
}

/// What a name stands for in the scope of a level.
fn meaning_in(level: u32, scope: &[Entry], name: u32) -> Option<Meaning>
    ensures { result ≡ meaning_from None level scope.now name }
{
    let mut found = None;
    for e in scope {
        if e.name == name && e.level == level {
            found = Some(e.meaning);
        }
    }
    found
}

/// The place of the first variable of a name.
fn place_of(variables: &[Named], name: u32) -> Option<Place>
    ensures { result ≡ place_of variables.now name }
{
    for v in variables {
        if v.name == name {
            return Some(v.place);
        }
    }
    None
}

/// The number of the object whose name stands at a place; 0 where it isn't known.
fn object_at(places: &[Place], place: Place) -> Result<u32, CheckError>
    ensures ok { IfOk result (λ n. n ≡ object_at 1 places.now place) }
{
    let mut number = 1;
    for p in places {
        if p.offset == place.offset {
            return Ok(number);
        }
        if number == u32::MAX {
            return Err(CheckError::NoMemory);
        }
        number += 1;
    }
    Ok(0)
}

/// The number of a name among these; 0 where it is none of them.
fn number_in(names: &[u32], name: u32) -> Result<u32, CheckError>
    ensures ok { IfOk result (λ n. n ≡ number_from 1 names.now name) }
{
    let mut number = 1;
    for m in names {
        if *m == name {
            return Ok(number);
        }
        if number == u32::MAX {
            return Err(CheckError::NoMemory);
        }
        number += 1;
    }
    Ok(0)
}

/// Whether a name is among these.
fn has(names: &[u32], name: u32) -> bool
    ensures { result ≡ has names.now name }
{
    for m in names {
        if *m == name {
            return true;
        }
    }
    false
}

/// Whether a variable of this name is at file scope.
fn has_variable(objects: &[ObjectEntry], name: u32) -> bool
    ensures { result ≡ has_variable objects.now name }
{
    for o in objects {
        if o.name == name && o.function == 0 {
            return true;
        }
    }
    false
}

/// Whether a number is among these.
fn contains(values: &[i128], v: i128) -> bool
    ensures { result ≡ contains values.now v }
{
    for w in values {
        if *w == v {
            return true;
        }
    }
    false
}

/// What a parameter asks of its argument.
fn parameter(parameters: &[CType], count: usize, i: usize) -> Want
    ensures { result ≡ parameter parameters.now count i }
{
    if parameters.len() != count {
        return Want::Anything;
    }
    match parameters.get(i) {
        Some(t) => Want::Fitting(*t),
        None => Want::Anything,
    }
}

/// The meaning of the last entry of a name.
fn lookup_in(scope: &[Entry], name: u32) -> Option<Meaning>
    ensures { result ≡ lookup_from None scope.now name }
{
    let mut found = None;
    for e in scope {
        if e.name == name {
            found = Some(e.meaning);
        }
    }
    found
}

fn kind_number(kind: Kind) -> u8
    ensures { result ≡ kind_number kind }
{
    match kind {
        Kind::Assertion => 1,
        Kind::Bounds => 2,
        Kind::Null => 3,
        Kind::Invalid => 4,
        Kind::Lifetime => 5,
        Kind::Pointer => 6,
        Kind::Object => 7,
        Kind::Division => 8,
        Kind::Shift => 9,
        Kind::Overflow => 10,
    }
}

/// The number of a check; 0 where it has none. More checks than a `u32` counts are want of memory.
fn number_of(numbers: &[CheckInfo], place: Place, kind: Kind) -> Result<u32, CheckError>
    ensures ok { IfOk result (λ n. n ≡ check_from 1 numbers.now place kind) }
{
    let mut number = 1;
    for c in numbers {
        if c.place.offset == place.offset && kind_number(c.kind) == kind_number(kind) {
            return Ok(number);
        }
        if number == u32::MAX {
            return Err(CheckError::NoMemory);
        }
        number += 1;
    }
    Ok(0)
}

/// What a built-in name asks of its argument.
pub fn wanted_by_builtin(b: Builtin, count: usize) -> Want
    ensures { result ≡ wanted_by_builtin b count }
{
    match b {
        Builtin::Assert | Builtin::Assume => if count == 1 {
            Want::Testing
        } else {
            Want::Anything
        },
        Builtin::Exit => if count == 1 {
            Want::Fitting(CType::Integer(Scalar::Int))
        } else {
            Want::Anything
        },
        Builtin::AssertFail => Want::Literal,
        _ => Want::Anything,
    }
}

fn is_builtin(meaning: Option<Meaning>) -> bool
    ensures { result ≡ is_builtin meaning }
{
    match meaning {
        Some(Meaning::Builtin(_)) => true,
        _ => false,
    }
}

/// Whether the scope of a level has a name.
fn has_name(level: u32, scope: &[Entry], name: u32) -> bool
    ensures { result ≡ has_name level scope.now name }
{
    for e in scope {
        if e.name == name && e.level == level {
            return true;
        }
    }
    false
}

/// Whether the scope of a level has a tag.
fn has_tag(level: u32, tags: &[TagEntry], name: u32) -> bool
    ensures { result ≡ has_tag level tags.now name }
{
    for e in tags {
        if e.name == name && e.level == level {
            return true;
        }
    }
    false
}
