//! The settings that the lines of a script have set so far.

ghost use Rattle.std.specs.Prelude.{◌≡◌, ◌⊎◌, ◌≤◌, Ok, Err, IfOk, IfErr, IfSome, OnOk, OnErr};
ghost use Rattle.schema.specs.declared.limits.TheConstants.{MAX_REPLICAS, MAX_WINDOW};
ghost use Rattle.script.specs.Script.{IsSettingWithinLimits};
ghost use Rattle.script.specs.Settings.{no_settings, once, setting_after};
ghost use Rattle.script.specs.declared.cause.FaultCause.TheVariants.{NoMemory};

use crate::beginning::{add_request, add_row};
use crate::cause::FaultCause;
use crate::procedure::add_procedure;
use crate::statements::Setting;
use crate::table::add_table;
use catalogue::Catalogue;
use row_sets::Bytes;
use schema::{Schema, SchemaFault};
use std::alloc::{AllocError, Allocator, Global};
use std::marker::Model;

/// The settings that the lines of a script have set so far. Contracts see the window, the number of replicas and the
/// catalogue.
#[derive(Drop)]
pub struct Settings<A: Allocator + Copy = Global> {
    window: Option<u32>,
    replicas: Option<u32>,
    /// The tables of the catalogue with their widths, in order of entry.
    pairs: Vec<(u8, u16), A>,
    catalogue: Catalogue<A>,
}

impl<A: Allocator + Copy> Model for Settings<A> {
    ghost use Rattle.std.specs.Prelude.{◌≡◌, Ok};
    ghost use Rattle.schema.specs.Schema.{schema_of};
    ghost use Rattle.script.specs.Settings.{ScriptSettings, AreWithinLimits, settings_code};

    ghost Value = { ScriptSettings };

    ghost coded = { settings_code };

    ghost view = { λ s. record { window = s.window; replicas = s.replicas; catalogue = s.catalogue } };

    ghost invariant = { λ s. (schema_of s.pairs.items ≡ Ok s.catalogue.tables) × AreWithinLimits s.window s.replicas };
}

impl<A: Allocator + Copy> Settings<A> {
    /// Makes settings of which nothing is set.
    pub fn new(alloc: A) -> Result<Settings<A>, AllocError>
        ensures { IfOk result (λ settings. settings ≡ no_settings) }
    {
        let schema = match Schema::new(alloc, &[]) {
            Ok(schema) => schema,
            Err(_) => return Err(AllocError),
        };
        Ok(Settings {
            window: None,
            replicas: None,
            pairs: Vec::new(alloc),
            catalogue: Catalogue::new(alloc, schema),
        })
    }

    /// Sets what a line says. An origin is of sites alone.
    #[tactic(auto, unfolding(crate::specs::Settings::setting_after))]
    pub fn set(&mut self, setting: Setting<Bytes<A>>) -> Result<(), FaultCause>
        // The limits are those of a line's setting.
        requires { IsSettingWithinLimits setting }
        ensures ok { OnOk result (setting_after self.old setting ≡ Ok self.new) }
        ensures fault { IfErr result (λ cause. (cause ≡ NoMemory) ⊎ (setting_after self.old setting ≡ Err cause)) }
        ensures unchanged { OnErr result (self.new ≡ self.old) }
    {
        match setting {
            Setting::Window(window) => set_once(&mut self.window, window),
            Setting::Replicas(replicas) => set_once(&mut self.replicas, replicas),
            Setting::Table { table, width } => {
                add_table(&mut self.pairs, &mut self.catalogue, table, width)
            }
            Setting::Procedure(procedure) => add_procedure(
                *self.pairs.allocator(),
                &mut self.catalogue,
                procedure.name.as_slice(),
                procedure.number,
                procedure.args_len,
                procedure.program.as_slice(),
            ),
            Setting::Row { table, key, row } => {
                add_row(&mut self.catalogue, table, key, row.as_slice())
            }
            Setting::Request(request) => add_request(&mut self.catalogue, &request),
            Setting::Origin { .. } => Err(FaultCause::Place),
        }
    }

    /// The window, 1 to 4,096, where it is set.
    pub fn window(&self) -> Option<u32>
        ensures window { result ≡ self.now.window }
        ensures from { IfSome result (λ window. 1 ≤ window) }
        ensures to { IfSome result (λ window. window ≤ MAX_WINDOW) }
    {
        self.window
    }

    /// The number of replicas, 1 to 8, where that is set.
    pub fn replicas(&self) -> Option<u32>
        ensures replicas { result ≡ self.now.replicas }
        ensures from { IfSome result (λ replicas. 1 ≤ replicas) }
        ensures to { IfSome result (λ replicas. replicas ≤ MAX_REPLICAS) }
    {
        self.replicas
    }

    /// The catalogue as far as it is set.
    pub fn catalogue(&self) -> &Catalogue<A>
        ensures { result.now ≡ self.now.catalogue }
    {
        &self.catalogue
    }

    /// The tables, and all that the database begins with.
    pub fn into_catalogue(self) -> Catalogue<A>
        ensures { result ≡ self.catalogue }
    {
        let Settings { catalogue, .. } = self;
        catalogue
    }
}

/// Sets a number that isn't set yet.
fn set_once(setting: &mut Option<u32>, number: u32) -> Result<(), FaultCause>
    ensures ok { OnOk result (once setting.old number ≡ Ok setting.new) }
    ensures fault { IfErr result (λ cause. once setting.old number ≡ Err cause) }
    ensures unchanged { OnErr result (setting.new ≡ setting.old) }
{
    if setting.is_some() {
        return Err(FaultCause::Place);
    }
    *setting = Some(number);
    Ok(())
}
