//! The built-in classes, made from their table.

ghost use Rattle.std.specs.Prelude.{◌≡◌, IfOk, Some, map, pos, [], false};
ghost use Rattle.cil_model.specs.declared.instructions.Instruction.TheVariants.{Return};
ghost use Rattle.cil_model.specs.Declarations.{built_ins, no_code, return_alone};
ghost use Rattle.name_tables.specs.BuiltInTable.{base_of, built_in_entry, method_of, row_entry};

use cil_model::instructions::{Instruction, MethodName};
use cil_model::memory::NoMemory;
use cil_model::sequences::Sequence;
use cil_model::texts::Text;
use cil_model::trees::{Code, Line, Method, MethodKind};
use cil_model::types::{ClassName, DeclaredType, Element, Signature};
use std::alloc::Global;

/// A built-in class: its name, its base and its methods. It has no fields.
#[derive(Drop)]
pub struct BuiltInClass {
    pub name: ClassName,
    pub base: Option<ClassName>,
    pub methods: Sequence<Method>,
}

fn text(alloc: Global, characters: &str) -> Result<Text, NoMemory>
    ensures { IfOk result (λ t. t ≡ characters.now) }
{
    Ok(Text::new(String::from_str(alloc, characters)?))
}

fn class_name(alloc: Global, assembly: &str, name: &str) -> Result<ClassName, NoMemory>
    ensures { IfOk result (λ c. c ≡ record { assembly = Some assembly.now; name = name.now }) }
{
    Ok(ClassName {
        assembly: Some(text(alloc, assembly)?),
        name: text(alloc, name)?,
    })
}

/// Code of these lines, without locals.
fn code_of(alloc: Global, lines: Vec<Line>) -> Code
    ensures { result ≡ record { is_entry_point = false; max_stack = pos 0; locals = []; lines = lines.items } }
{
    Code {
        is_entry_point: false,
        max_stack: 0,
        locals: Sequence::new(Vec::new(alloc)),
        lines: Sequence::new(lines),
    }
}

fn no_code(alloc: Global) -> Code
    ensures { result ≡ no_code }
{
    code_of(alloc, Vec::new(alloc))
}

/// `ret` without labels.
fn return_line(alloc: Global) -> Line
    ensures { result ≡ record { labels = []; instruction = Return } }
{
    Line {
        labels: Sequence::new(Vec::new(alloc)),
        instruction: Instruction::Return,
    }
}

fn return_alone(alloc: Global) -> Result<Code, NoMemory>
    ensures { IfOk result (λ c. c ≡ return_alone) }
{
    let mut lines = Vec::new(alloc);
    lines.push(return_line(alloc))?;
    Ok(code_of(alloc, lines))
}

/// The type of a parameter of a built-in method.
#[derive(Clone, Copy)]
enum Parameter {
    Int32,
    Int64,
    String,
    Object,
}

/// A method of a built-in class, without a result.
#[derive(Clone, Copy)]
enum BuiltInMethod<'a> {
    /// A constructor without parameters.
    Constructor,
    /// What a thread runs.
    Run,
    /// An instance method of this name, without parameters.
    Instance(&'a str),
    /// A static method of this name, with one parameter.
    Static(&'a str, Parameter),
}

/// A row of the table of built-in classes: a class of a library, with its methods. It is derived from `System.Object` or from nothing.
#[derive(Clone, Copy)]
struct BuiltInRow<'a> {
    library: &'a str,
    name: &'a str,
    is_derived: bool,
    methods: &'a [BuiltInMethod<'a>],
}

const CONSOLE_METHODS: [BuiltInMethod<'static>; 3] = [
    BuiltInMethod::Static("WriteLine", Parameter::Int32),
    BuiltInMethod::Static("WriteLine", Parameter::Int64),
    BuiltInMethod::Static("WriteLine", Parameter::String),
];

const MONITOR_METHODS: [BuiltInMethod<'static>; 2] = [
    BuiltInMethod::Static("Enter", Parameter::Object),
    BuiltInMethod::Static("Exit", Parameter::Object),
];

const THREAD_METHODS: [BuiltInMethod<'static>; 4] = [
    BuiltInMethod::Constructor,
    BuiltInMethod::Run,
    BuiltInMethod::Instance("Start"),
    BuiltInMethod::Instance("Join"),
];

impl Parameter {
    ghost use Rattle.name_tables.specs.BuiltInTable.{element_of};

    fn element(self) -> Element
        ensures { result ≡ element_of self }
    {
        match self {
            Parameter::Int32 => Element::Int32,
            Parameter::Int64 => Element::Int64,
            Parameter::String => Element::String,
            Parameter::Object => Element::Object,
        }
    }
}

impl BuiltInMethod<'_> {
    ghost use Rattle.name_tables.specs.BuiltInTable.{method_of};

    fn name(&self, alloc: Global) -> Result<MethodName, NoMemory>
        ensures { IfOk result (λ name. name ≡ (method_of self.now).name) }
    {
        let name = match *self {
            BuiltInMethod::Constructor => return Ok(MethodName::Constructor),
            BuiltInMethod::Run => "Run",
            BuiltInMethod::Instance(name) => name,
            BuiltInMethod::Static(name, _) => name,
        };
        Ok(MethodName::Named(text(alloc, name)?))
    }

    fn parameters(&self, alloc: Global) -> Result<Vec<DeclaredType>, NoMemory>
        ensures { IfOk result (λ v. v.items ≡ (method_of self.now).signature.parameters) }
    {
        let mut parameters = Vec::new(alloc);
        if let BuiltInMethod::Static(_, parameter) = *self {
            parameters.push(DeclaredType {
                element: parameter.element(),
                brackets: 0,
            })?;
        }
        Ok(parameters)
    }

    fn kind(&self, alloc: Global) -> Result<MethodKind, NoMemory>
        ensures { IfOk result (λ kind. kind ≡ (method_of self.now).kind) }
    {
        let kind = match *self {
            BuiltInMethod::Static(_, _) => MethodKind::Static(no_code(alloc)),
            BuiltInMethod::Run => MethodKind::Virtual {
                is_new_slot: true,
                code: return_alone(alloc)?,
            },
            _ => MethodKind::Instance(no_code(alloc)),
        };
        Ok(kind)
    }

    fn method(&self, alloc: Global) -> Result<Method, NoMemory>
        ensures { IfOk result (λ m. m ≡ method_of self.now) }
    {
        let parameters = self.parameters(alloc)?;
        Ok(Method {
            name: self.name(alloc)?,
            signature: Signature {
                parameters: Sequence::new(parameters),
                return_type: None,
            },
            kind: self.kind(alloc)?,
        })
    }
}

fn methods_of(alloc: Global, table: &[BuiltInMethod]) -> Result<Vec<Method>, NoMemory>
    ensures { IfOk result (λ v. v.items ≡ map method_of table.now) }
{
    let mut methods = Vec::new(alloc);
    for index in 0..table.len() {
        methods.push(table[index].method(alloc)?)?;
    }
    Ok(methods)
}

/// The base of a class of the table.
fn base_of(alloc: Global, is_derived: bool) -> Result<Option<ClassName>, NoMemory>
    ensures { IfOk result (λ base. base ≡ base_of is_derived) }
{
    if is_derived {
        Ok(Some(class_name(alloc, "mscorlib", "System.Object")?))
    } else {
        Ok(None)
    }
}

fn classes_of(alloc: Global, table: &[BuiltInRow]) -> Result<Sequence<BuiltInClass>, NoMemory>
    ensures { IfOk result (λ b. map built_in_entry b ≡ map row_entry table.now) }
{
    let mut classes = Vec::new(alloc);
    for index in 0..table.len() {
        classes.push(BuiltInClass::of_row(alloc, &table[index])?)?;
    }
    Ok(Sequence::new(classes))
}

impl BuiltInClass {
    fn of_row(alloc: Global, row: &BuiltInRow) -> Result<Self, NoMemory>
        ensures { IfOk result (λ b. built_in_entry b ≡ row_entry row.now) }
    {
        let methods = methods_of(alloc, row.methods)?;
        Ok(BuiltInClass {
            name: class_name(alloc, row.library, row.name)?,
            base: base_of(alloc, row.is_derived)?,
            methods: Sequence::new(methods),
        })
    }

    /// All of them, in the order of their table. The only error is out of memory.
    pub fn all(alloc: Global) -> Result<Sequence<BuiltInClass>, NoMemory>
        ensures { IfOk result (λ b. map built_in_entry b ≡ built_ins) }
    {
        let object = BuiltInRow {
            library: "mscorlib",
            name: "System.Object",
            is_derived: false,
            methods: &[BuiltInMethod::Constructor],
        };
        let string = BuiltInRow {
            library: "mscorlib",
            name: "System.String",
            is_derived: true,
            methods: &[],
        };
        let console = BuiltInRow {
            library: "mscorlib",
            name: "System.Console",
            is_derived: false,
            methods: &CONSOLE_METHODS,
        };
        let monitor = BuiltInRow {
            library: "mscorlib",
            name: "System.Threading.Monitor",
            is_derived: false,
            methods: &MONITOR_METHODS,
        };
        let thread = BuiltInRow {
            library: "cilvm",
            name: "Cilvm.Thread",
            is_derived: true,
            methods: &THREAD_METHODS,
        };
        classes_of(alloc, &[object, string, console, monitor, thread])
    }
}
