// The key by which the names of a file are hashed.
use symbol_table::{Digest, NameKey};
use viper_syntax::{Decl, Formal, Named, SArm, SBlock, SMethod, SStmt};

/// A key that comes of all names that a file declares.
pub(crate) fn key_of(decls: &[Decl]) -> NameKey {
    let mut digest = Digest::new();
    for decl in decls {
        add_decl(&mut digest, decl);
    }
    digest.key()
}

fn add_decl(digest: &mut Digest, decl: &Decl) {
    match decl {
        Decl::Field(field) => add_name(digest, &field.name),
        Decl::Predicate(_, name, params, _) => {
            add_name(digest, name);
            add_formals(digest, params);
        }
        Decl::Method(method) => add_method(digest, method),
    }
}

fn add_method(digest: &mut Digest, method: &SMethod) {
    add_name(digest, &method.name);
    add_formals(digest, &method.params);
    add_formals(digest, &method.returns);
    if let Some(body) = &method.body {
        add_block(digest, body);
    }
}

fn add_name(digest: &mut Digest, name: &Named) {
    digest.add(name.name.bytes());
}

fn add_formals(digest: &mut Digest, formals: &[Formal]) {
    for formal in formals {
        add_name(digest, &formal.name);
    }
}

#[cycle(stmts)]
fn add_block(digest: &mut Digest, block: &SBlock) {
    for stmt in &block.stmts {
        add_stmt(digest, stmt);
    }
}

#[cycle(stmts)]
fn add_arms(digest: &mut Digest, arms: &[SArm]) {
    for arm in arms {
        add_block(digest, &arm.block);
    }
}

#[cycle(stmts)]
fn add_stmt(digest: &mut Digest, stmt: &SStmt) {
    match stmt {
        SStmt::Var(_, variable, _) => add_name(digest, &variable.name),
        SStmt::If(arms, last) => {
            add_arms(digest, arms);
            if let Some(block) = last {
                add_block(digest, block);
            }
        }
        SStmt::While(_, _, _, body) => add_block(digest, body),
        _ => {}
    }
}
