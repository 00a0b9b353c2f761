// The public FIT Profile. Made by crates/fit_profile/make from python/fitrec/profile.txt.

ghost use Rattle.std.specs.Prelude.{◌≡◌, option_map};
ghost use Rattle.fit_profile.specs.Facts.{field_rows};
ghost use Rattle.fit_profile.specs.Table.{message_named, name_0, name_1, name_2, name_3, name_4, name_5, name_6, name_7, fields_at, fields_0, fields_1, fields_2, fields_3, fields_4, fields_5, fields_6, fields_7};

use crate::row::FieldRow;
use crate::scale::Scale;

// The fields of `file_id`.
pub const FILE_ID: &[FieldRow] = &[
    (0, "type", "", Scale::Whole),
    (1, "manufacturer", "", Scale::Whole),
    (2, "product", "", Scale::Whole),
    (3, "serial_number", "", Scale::Whole),
    (4, "time_created", "_s", Scale::Time),
    (5, "number", "", Scale::Whole),
    (8, "product_name", "", Scale::Whole),
];

// The fields of `capabilities`.
pub const CAPABILITIES: &[FieldRow] = &[
    (0, "languages", "", Scale::Whole),
    (1, "sports", "", Scale::Whole),
    (21, "workouts_supported", "", Scale::Whole),
    (23, "connectivity_supported", "", Scale::Whole),
];

// The fields of `device_settings`.
pub const DEVICE_SETTINGS: &[FieldRow] = &[
    (0, "active_time_zone", "", Scale::Whole),
    (1, "utc_offset", "", Scale::Whole),
    (2, "time_offset", "_s", Scale::Whole),
    (4, "time_mode", "", Scale::Whole),
    (5, "time_zone_offset", "_h", Scale::Quarter),
    (12, "backlight_mode", "", Scale::Whole),
    (36, "activity_tracker_enabled", "", Scale::Whole),
    (39, "clock_time", "_s", Scale::Time),
    (40, "pages_enabled", "", Scale::Whole),
    (46, "move_alert_enabled", "", Scale::Whole),
    (47, "date_mode", "", Scale::Whole),
    (55, "display_orientation", "", Scale::Whole),
    (56, "mounting_side", "", Scale::Whole),
    (57, "default_page", "", Scale::Whole),
    (58, "autosync_min_steps", "_steps", Scale::Whole),
    (59, "autosync_min_time", "_min", Scale::Whole),
    (80, "lactate_threshold_autodetect_enabled", "", Scale::Whole),
    (86, "ble_auto_upload_enabled", "", Scale::Whole),
    (89, "auto_sync_frequency", "", Scale::Whole),
    (90, "auto_activity_detect", "", Scale::Whole),
    (94, "number_of_screens", "", Scale::Whole),
    (
        95,
        "smart_notification_display_orientation",
        "",
        Scale::Whole,
    ),
    (134, "tap_interface", "", Scale::Whole),
    (174, "tap_sensitivity", "", Scale::Whole),
];

// The fields of `user_profile`.
pub const USER_PROFILE: &[FieldRow] = &[
    (0, "friendly_name", "", Scale::Whole),
    (1, "gender", "", Scale::Whole),
    (2, "age", "_years", Scale::Whole),
    (3, "height", "_m", Scale::Hundredth),
    (4, "weight", "_kg", Scale::Tenth),
    (5, "language", "", Scale::Whole),
    (6, "elev_setting", "", Scale::Whole),
    (7, "weight_setting", "", Scale::Whole),
    (8, "resting_heart_rate", "_bpm", Scale::Whole),
    (9, "default_max_running_heart_rate", "_bpm", Scale::Whole),
    (10, "default_max_biking_heart_rate", "_bpm", Scale::Whole),
    (11, "default_max_heart_rate", "_bpm", Scale::Whole),
    (12, "hr_setting", "", Scale::Whole),
    (13, "speed_setting", "", Scale::Whole),
    (14, "dist_setting", "", Scale::Whole),
    (16, "power_setting", "", Scale::Whole),
    (17, "activity_class", "", Scale::Whole),
    (18, "position_setting", "", Scale::Whole),
    (21, "temperature_setting", "", Scale::Whole),
    (22, "local_id", "", Scale::Whole),
    (23, "global_id", "", Scale::Whole),
    (28, "wake_time", "", Scale::Whole),
    (29, "sleep_time", "", Scale::Whole),
    (30, "height_setting", "", Scale::Whole),
    (31, "user_running_step_length", "_m", Scale::Thousandth),
    (32, "user_walking_step_length", "_m", Scale::Thousandth),
    (47, "depth_setting", "", Scale::Whole),
    (49, "dive_count", "", Scale::Whole),
    (254, "message_index", "", Scale::Whole),
];

// The fields of `hrm_profile`.
pub const HRM_PROFILE: &[FieldRow] = &[
    (0, "enabled", "", Scale::Whole),
    (1, "hrm_ant_id", "", Scale::Whole),
    (2, "log_hrv", "", Scale::Whole),
    (3, "hrm_ant_id_trans_type", "", Scale::Whole),
    (254, "message_index", "", Scale::Whole),
];

// The fields of `sdm_profile`.
pub const SDM_PROFILE: &[FieldRow] = &[
    (0, "enabled", "", Scale::Whole),
    (1, "sdm_ant_id", "", Scale::Whole),
    (2, "sdm_cal_factor", "_percent", Scale::Tenth),
    (3, "odometer", "_m", Scale::Hundredth),
    (4, "speed_source", "", Scale::Whole),
    (5, "sdm_ant_id_trans_type", "", Scale::Whole),
    (7, "odometer_rollover", "", Scale::Whole),
    (254, "message_index", "", Scale::Whole),
];

// The fields of `bike_profile`.
pub const BIKE_PROFILE: &[FieldRow] = &[
    (0, "name", "", Scale::Whole),
    (1, "sport", "", Scale::Whole),
    (2, "sub_sport", "", Scale::Whole),
    (3, "odometer", "_m", Scale::Hundredth),
    (4, "bike_spd_ant_id", "", Scale::Whole),
    (5, "bike_cad_ant_id", "", Scale::Whole),
    (6, "bike_spdcad_ant_id", "", Scale::Whole),
    (7, "bike_power_ant_id", "", Scale::Whole),
    (8, "custom_wheelsize", "_m", Scale::Thousandth),
    (9, "auto_wheelsize", "_m", Scale::Thousandth),
    (10, "bike_weight", "_kg", Scale::Tenth),
    (11, "power_cal_factor", "_percent", Scale::Tenth),
    (12, "auto_wheel_cal", "", Scale::Whole),
    (13, "auto_power_zero", "", Scale::Whole),
    (14, "id", "", Scale::Whole),
    (15, "spd_enabled", "", Scale::Whole),
    (16, "cad_enabled", "", Scale::Whole),
    (17, "spdcad_enabled", "", Scale::Whole),
    (18, "power_enabled", "", Scale::Whole),
    (19, "crank_length", "_mm", Scale::Crank),
    (20, "enabled", "", Scale::Whole),
    (21, "bike_spd_ant_id_trans_type", "", Scale::Whole),
    (22, "bike_cad_ant_id_trans_type", "", Scale::Whole),
    (23, "bike_spdcad_ant_id_trans_type", "", Scale::Whole),
    (24, "bike_power_ant_id_trans_type", "", Scale::Whole),
    (37, "odometer_rollover", "", Scale::Whole),
    (38, "front_gear_num", "", Scale::Whole),
    (39, "front_gear", "", Scale::Whole),
    (40, "rear_gear_num", "", Scale::Whole),
    (41, "rear_gear", "", Scale::Whole),
    (44, "shimano_di2_enabled", "", Scale::Whole),
    (254, "message_index", "", Scale::Whole),
];

// The fields of `zones_target`.
pub const ZONES_TARGET: &[FieldRow] = &[
    (1, "max_heart_rate", "_bpm", Scale::Whole),
    (2, "threshold_heart_rate", "_bpm", Scale::Whole),
    (3, "functional_threshold_power", "_w", Scale::Whole),
    (5, "hr_calc_type", "", Scale::Whole),
    (7, "pwr_calc_type", "", Scale::Whole),
];

// The fields of `hr_zone`.
pub const HR_ZONE: &[FieldRow] = &[
    (1, "high_bpm", "_bpm", Scale::Whole),
    (2, "name", "", Scale::Whole),
    (254, "message_index", "", Scale::Whole),
];

// The fields of `power_zone`.
pub const POWER_ZONE: &[FieldRow] = &[
    (1, "high_value", "_w", Scale::Whole),
    (2, "name", "", Scale::Whole),
    (254, "message_index", "", Scale::Whole),
];

// The fields of `met_zone`.
pub const MET_ZONE: &[FieldRow] = &[
    (1, "high_bpm", "_bpm", Scale::Whole),
    (2, "calories", "_kcal_min", Scale::Tenth),
    (3, "fat_calories", "_kcal_min", Scale::Tenth),
    (254, "message_index", "", Scale::Whole),
];

// The fields of `sport`.
pub const SPORT: &[FieldRow] = &[
    (0, "sport", "", Scale::Whole),
    (1, "sub_sport", "", Scale::Whole),
    (3, "name", "", Scale::Whole),
];

// The fields of `goal`.
pub const GOAL: &[FieldRow] = &[
    (0, "sport", "", Scale::Whole),
    (1, "sub_sport", "", Scale::Whole),
    (2, "start_date", "_s", Scale::Time),
    (3, "end_date", "_s", Scale::Time),
    (4, "type", "", Scale::Whole),
    (5, "value", "", Scale::Whole),
    (6, "repeat", "", Scale::Whole),
    (7, "target_value", "", Scale::Whole),
    (8, "recurrence", "", Scale::Whole),
    (9, "recurrence_value", "", Scale::Whole),
    (10, "enabled", "", Scale::Whole),
    (11, "source", "", Scale::Whole),
    (254, "message_index", "", Scale::Whole),
];

// The fields of `session`.
pub const SESSION: &[FieldRow] = &[
    (0, "event", "", Scale::Whole),
    (1, "event_type", "", Scale::Whole),
    (2, "start_time", "_s", Scale::Time),
    (3, "start_position_lat", "_deg", Scale::Semicircles),
    (4, "start_position_long", "_deg", Scale::Semicircles),
    (5, "sport", "", Scale::Whole),
    (6, "sub_sport", "", Scale::Whole),
    (7, "total_elapsed_time", "_s", Scale::Thousandth),
    (8, "total_timer_time", "_s", Scale::Thousandth),
    (9, "total_distance", "_m", Scale::Hundredth),
    (10, "total_cycles", "_cycles", Scale::Whole),
    (11, "total_calories", "_kcal", Scale::Whole),
    (13, "total_fat_calories", "_kcal", Scale::Whole),
    (14, "avg_speed", "_m_s", Scale::Thousandth),
    (15, "max_speed", "_m_s", Scale::Thousandth),
    (16, "avg_heart_rate", "_bpm", Scale::Whole),
    (17, "max_heart_rate", "_bpm", Scale::Whole),
    (18, "avg_cadence", "_rpm", Scale::Whole),
    (19, "max_cadence", "_rpm", Scale::Whole),
    (20, "avg_power", "_w", Scale::Whole),
    (21, "max_power", "_w", Scale::Whole),
    (22, "total_ascent", "_m", Scale::Whole),
    (23, "total_descent", "_m", Scale::Whole),
    (24, "total_training_effect", "", Scale::Tenth),
    (25, "first_lap_index", "", Scale::Whole),
    (26, "num_laps", "", Scale::Whole),
    (27, "event_group", "", Scale::Whole),
    (28, "trigger", "", Scale::Whole),
    (29, "nec_lat", "_deg", Scale::Semicircles),
    (30, "nec_long", "_deg", Scale::Semicircles),
    (31, "swc_lat", "_deg", Scale::Semicircles),
    (32, "swc_long", "_deg", Scale::Semicircles),
    (34, "normalized_power", "_w", Scale::Whole),
    (35, "training_stress_score", "_tss", Scale::Tenth),
    (36, "intensity_factor", "_if", Scale::Thousandth),
    (37, "left_right_balance", "", Scale::Whole),
    (41, "avg_stroke_count", "_strokes_lap", Scale::Tenth),
    (42, "avg_stroke_distance", "_m", Scale::Hundredth),
    (43, "swim_stroke", "", Scale::Whole),
    (44, "pool_length", "_m", Scale::Hundredth),
    (45, "threshold_power", "_w", Scale::Whole),
    (46, "pool_length_unit", "", Scale::Whole),
    (47, "num_active_lengths", "_lengths", Scale::Whole),
    (48, "total_work", "_j", Scale::Whole),
    (49, "avg_altitude", "_m", Scale::Height),
    (50, "max_altitude", "_m", Scale::Height),
    (51, "gps_accuracy", "_m", Scale::Whole),
    (52, "avg_grade", "_percent", Scale::Hundredth),
    (53, "avg_pos_grade", "_percent", Scale::Hundredth),
    (54, "avg_neg_grade", "_percent", Scale::Hundredth),
    (55, "max_pos_grade", "_percent", Scale::Hundredth),
    (56, "max_neg_grade", "_percent", Scale::Hundredth),
    (57, "avg_temperature", "_c", Scale::Whole),
    (58, "max_temperature", "_c", Scale::Whole),
    (59, "total_moving_time", "_s", Scale::Thousandth),
    (60, "avg_pos_vertical_speed", "_m_s", Scale::Thousandth),
    (61, "avg_neg_vertical_speed", "_m_s", Scale::Thousandth),
    (62, "max_pos_vertical_speed", "_m_s", Scale::Thousandth),
    (63, "max_neg_vertical_speed", "_m_s", Scale::Thousandth),
    (64, "min_heart_rate", "_bpm", Scale::Whole),
    (65, "time_in_hr_zone", "_s", Scale::Thousandth),
    (66, "time_in_speed_zone", "_s", Scale::Thousandth),
    (67, "time_in_cadence_zone", "_s", Scale::Thousandth),
    (68, "time_in_power_zone", "_s", Scale::Thousandth),
    (69, "avg_lap_time", "_s", Scale::Thousandth),
    (70, "best_lap_index", "", Scale::Whole),
    (71, "min_altitude", "_m", Scale::Height),
    (82, "player_score", "", Scale::Whole),
    (83, "opponent_score", "", Scale::Whole),
    (84, "opponent_name", "", Scale::Whole),
    (85, "stroke_count", "_counts", Scale::Whole),
    (86, "zone_count", "_counts", Scale::Whole),
    (87, "max_ball_speed", "_m_s", Scale::Hundredth),
    (88, "avg_ball_speed", "_m_s", Scale::Hundredth),
    (89, "avg_vertical_oscillation", "_mm", Scale::Tenth),
    (90, "avg_stance_time_percent", "_percent", Scale::Hundredth),
    (91, "avg_stance_time", "_ms", Scale::Tenth),
    (92, "avg_fractional_cadence", "_rpm", Scale::Part128),
    (93, "max_fractional_cadence", "_rpm", Scale::Part128),
    (94, "total_fractional_cycles", "_cycles", Scale::Part128),
    (95, "avg_total_hemoglobin_conc", "_g_dl", Scale::Hundredth),
    (96, "min_total_hemoglobin_conc", "_g_dl", Scale::Hundredth),
    (97, "max_total_hemoglobin_conc", "_g_dl", Scale::Hundredth),
    (
        98,
        "avg_saturated_hemoglobin_percent",
        "_percent",
        Scale::Tenth,
    ),
    (
        99,
        "min_saturated_hemoglobin_percent",
        "_percent",
        Scale::Tenth,
    ),
    (
        100,
        "max_saturated_hemoglobin_percent",
        "_percent",
        Scale::Tenth,
    ),
    (
        101,
        "avg_left_torque_effectiveness",
        "_percent",
        Scale::Half,
    ),
    (
        102,
        "avg_right_torque_effectiveness",
        "_percent",
        Scale::Half,
    ),
    (103, "avg_left_pedal_smoothness", "_percent", Scale::Half),
    (104, "avg_right_pedal_smoothness", "_percent", Scale::Half),
    (
        105,
        "avg_combined_pedal_smoothness",
        "_percent",
        Scale::Half,
    ),
    (111, "sport_index", "", Scale::Whole),
    (112, "time_standing", "_s", Scale::Thousandth),
    (113, "stand_count", "", Scale::Whole),
    (114, "avg_left_pco", "_mm", Scale::Whole),
    (115, "avg_right_pco", "_mm", Scale::Whole),
    (116, "avg_left_power_phase", "_deg", Scale::Phase),
    (117, "avg_left_power_phase_peak", "_deg", Scale::Phase),
    (118, "avg_right_power_phase", "_deg", Scale::Phase),
    (119, "avg_right_power_phase_peak", "_deg", Scale::Phase),
    (120, "avg_power_position", "_w", Scale::Whole),
    (121, "max_power_position", "_w", Scale::Whole),
    (122, "avg_cadence_position", "_rpm", Scale::Whole),
    (123, "max_cadence_position", "_rpm", Scale::Whole),
    (124, "enhanced_avg_speed", "_m_s", Scale::Thousandth),
    (125, "enhanced_max_speed", "_m_s", Scale::Thousandth),
    (126, "enhanced_avg_altitude", "_m", Scale::Height),
    (127, "enhanced_min_altitude", "_m", Scale::Height),
    (128, "enhanced_max_altitude", "_m", Scale::Height),
    (129, "avg_lev_motor_power", "_w", Scale::Whole),
    (130, "max_lev_motor_power", "_w", Scale::Whole),
    (131, "lev_battery_consumption", "_percent", Scale::Half),
    (132, "avg_vertical_ratio", "_percent", Scale::Hundredth),
    (133, "avg_stance_time_balance", "_percent", Scale::Hundredth),
    (134, "avg_step_length", "_mm", Scale::Tenth),
    (137, "total_anaerobic_training_effect", "", Scale::Tenth),
    (139, "avg_vam", "_m_s", Scale::Thousandth),
    (140, "avg_depth", "_m", Scale::Thousandth),
    (141, "max_depth", "_m", Scale::Thousandth),
    (142, "surface_interval", "_s", Scale::Whole),
    (143, "start_cns", "_percent", Scale::Whole),
    (144, "end_cns", "_percent", Scale::Whole),
    (145, "start_n2", "_percent", Scale::Whole),
    (146, "end_n2", "_percent", Scale::Whole),
    (147, "avg_respiration_rate", "", Scale::Whole),
    (148, "max_respiration_rate", "", Scale::Whole),
    (149, "min_respiration_rate", "", Scale::Whole),
    (150, "min_temperature", "_c", Scale::Whole),
    (155, "o2_toxicity", "_otus", Scale::Whole),
    (156, "dive_number", "", Scale::Whole),
    (168, "training_load_peak", "", Scale::Part65536),
    (
        169,
        "enhanced_avg_respiration_rate",
        "_breaths_min",
        Scale::Hundredth,
    ),
    (
        170,
        "enhanced_max_respiration_rate",
        "_breaths_min",
        Scale::Whole,
    ),
    (180, "enhanced_min_respiration_rate", "", Scale::Hundredth),
    (181, "total_grit", "_kgrit", Scale::Whole),
    (182, "total_flow", "_flow", Scale::Whole),
    (183, "jump_count", "", Scale::Whole),
    (186, "avg_grit", "_kgrit", Scale::Whole),
    (187, "avg_flow", "_flow", Scale::Whole),
    (199, "total_fractional_ascent", "_m", Scale::Whole),
    (200, "total_fractional_descent", "_m", Scale::Whole),
    (208, "avg_core_temperature", "_c", Scale::Whole),
    (209, "min_core_temperature", "_c", Scale::Whole),
    (210, "max_core_temperature", "_c", Scale::Whole),
    (253, "timestamp", "_s", Scale::Time),
    (254, "message_index", "", Scale::Whole),
];

// The fields of `lap`.
pub const LAP: &[FieldRow] = &[
    (0, "event", "", Scale::Whole),
    (1, "event_type", "", Scale::Whole),
    (2, "start_time", "_s", Scale::Time),
    (3, "start_position_lat", "_deg", Scale::Semicircles),
    (4, "start_position_long", "_deg", Scale::Semicircles),
    (5, "end_position_lat", "_deg", Scale::Semicircles),
    (6, "end_position_long", "_deg", Scale::Semicircles),
    (7, "total_elapsed_time", "_s", Scale::Thousandth),
    (8, "total_timer_time", "_s", Scale::Thousandth),
    (9, "total_distance", "_m", Scale::Hundredth),
    (10, "total_cycles", "_cycles", Scale::Whole),
    (11, "total_calories", "_kcal", Scale::Whole),
    (12, "total_fat_calories", "_kcal", Scale::Whole),
    (13, "avg_speed", "_m_s", Scale::Thousandth),
    (14, "max_speed", "_m_s", Scale::Thousandth),
    (15, "avg_heart_rate", "_bpm", Scale::Whole),
    (16, "max_heart_rate", "_bpm", Scale::Whole),
    (17, "avg_cadence", "_rpm", Scale::Whole),
    (18, "max_cadence", "_rpm", Scale::Whole),
    (19, "avg_power", "_w", Scale::Whole),
    (20, "max_power", "_w", Scale::Whole),
    (21, "total_ascent", "_m", Scale::Whole),
    (22, "total_descent", "_m", Scale::Whole),
    (23, "intensity", "", Scale::Whole),
    (24, "lap_trigger", "", Scale::Whole),
    (25, "sport", "", Scale::Whole),
    (26, "event_group", "", Scale::Whole),
    (32, "num_lengths", "_lengths", Scale::Whole),
    (33, "normalized_power", "_w", Scale::Whole),
    (34, "left_right_balance", "", Scale::Whole),
    (35, "first_length_index", "", Scale::Whole),
    (37, "avg_stroke_distance", "_m", Scale::Hundredth),
    (38, "swim_stroke", "", Scale::Whole),
    (39, "sub_sport", "", Scale::Whole),
    (40, "num_active_lengths", "_lengths", Scale::Whole),
    (41, "total_work", "_j", Scale::Whole),
    (42, "avg_altitude", "_m", Scale::Height),
    (43, "max_altitude", "_m", Scale::Height),
    (44, "gps_accuracy", "_m", Scale::Whole),
    (45, "avg_grade", "_percent", Scale::Hundredth),
    (46, "avg_pos_grade", "_percent", Scale::Hundredth),
    (47, "avg_neg_grade", "_percent", Scale::Hundredth),
    (48, "max_pos_grade", "_percent", Scale::Hundredth),
    (49, "max_neg_grade", "_percent", Scale::Hundredth),
    (50, "avg_temperature", "_c", Scale::Whole),
    (51, "max_temperature", "_c", Scale::Whole),
    (52, "total_moving_time", "_s", Scale::Thousandth),
    (53, "avg_pos_vertical_speed", "_m_s", Scale::Thousandth),
    (54, "avg_neg_vertical_speed", "_m_s", Scale::Thousandth),
    (55, "max_pos_vertical_speed", "_m_s", Scale::Thousandth),
    (56, "max_neg_vertical_speed", "_m_s", Scale::Thousandth),
    (57, "time_in_hr_zone", "_s", Scale::Thousandth),
    (58, "time_in_speed_zone", "_s", Scale::Thousandth),
    (59, "time_in_cadence_zone", "_s", Scale::Thousandth),
    (60, "time_in_power_zone", "_s", Scale::Thousandth),
    (61, "repetition_num", "", Scale::Whole),
    (62, "min_altitude", "_m", Scale::Height),
    (63, "min_heart_rate", "_bpm", Scale::Whole),
    (71, "wkt_step_index", "", Scale::Whole),
    (74, "opponent_score", "", Scale::Whole),
    (75, "stroke_count", "_counts", Scale::Whole),
    (76, "zone_count", "_counts", Scale::Whole),
    (77, "avg_vertical_oscillation", "_mm", Scale::Tenth),
    (78, "avg_stance_time_percent", "_percent", Scale::Hundredth),
    (79, "avg_stance_time", "_ms", Scale::Tenth),
    (80, "avg_fractional_cadence", "_rpm", Scale::Part128),
    (81, "max_fractional_cadence", "_rpm", Scale::Part128),
    (82, "total_fractional_cycles", "_cycles", Scale::Part128),
    (83, "player_score", "", Scale::Whole),
    (84, "avg_total_hemoglobin_conc", "_g_dl", Scale::Hundredth),
    (85, "min_total_hemoglobin_conc", "_g_dl", Scale::Hundredth),
    (86, "max_total_hemoglobin_conc", "_g_dl", Scale::Hundredth),
    (
        87,
        "avg_saturated_hemoglobin_percent",
        "_percent",
        Scale::Tenth,
    ),
    (
        88,
        "min_saturated_hemoglobin_percent",
        "_percent",
        Scale::Tenth,
    ),
    (
        89,
        "max_saturated_hemoglobin_percent",
        "_percent",
        Scale::Tenth,
    ),
    (91, "avg_left_torque_effectiveness", "_percent", Scale::Half),
    (
        92,
        "avg_right_torque_effectiveness",
        "_percent",
        Scale::Half,
    ),
    (93, "avg_left_pedal_smoothness", "_percent", Scale::Half),
    (94, "avg_right_pedal_smoothness", "_percent", Scale::Half),
    (95, "avg_combined_pedal_smoothness", "_percent", Scale::Half),
    (98, "time_standing", "_s", Scale::Thousandth),
    (99, "stand_count", "", Scale::Whole),
    (100, "avg_left_pco", "_mm", Scale::Whole),
    (101, "avg_right_pco", "_mm", Scale::Whole),
    (102, "avg_left_power_phase", "_deg", Scale::Phase),
    (103, "avg_left_power_phase_peak", "_deg", Scale::Phase),
    (104, "avg_right_power_phase", "_deg", Scale::Phase),
    (105, "avg_right_power_phase_peak", "_deg", Scale::Phase),
    (106, "avg_power_position", "_w", Scale::Whole),
    (107, "max_power_position", "_w", Scale::Whole),
    (108, "avg_cadence_position", "_rpm", Scale::Whole),
    (109, "max_cadence_position", "_rpm", Scale::Whole),
    (110, "enhanced_avg_speed", "_m_s", Scale::Thousandth),
    (111, "enhanced_max_speed", "_m_s", Scale::Thousandth),
    (112, "enhanced_avg_altitude", "_m", Scale::Height),
    (113, "enhanced_min_altitude", "_m", Scale::Height),
    (114, "enhanced_max_altitude", "_m", Scale::Height),
    (115, "avg_lev_motor_power", "_w", Scale::Whole),
    (116, "max_lev_motor_power", "_w", Scale::Whole),
    (117, "lev_battery_consumption", "_percent", Scale::Half),
    (118, "avg_vertical_ratio", "_percent", Scale::Hundredth),
    (119, "avg_stance_time_balance", "_percent", Scale::Hundredth),
    (120, "avg_step_length", "_mm", Scale::Tenth),
    (121, "avg_vam", "_m_s", Scale::Thousandth),
    (122, "avg_depth", "_m", Scale::Thousandth),
    (123, "max_depth", "_m", Scale::Thousandth),
    (124, "min_temperature", "_c", Scale::Whole),
    (
        136,
        "enhanced_avg_respiration_rate",
        "_breaths_min",
        Scale::Hundredth,
    ),
    (
        137,
        "enhanced_max_respiration_rate",
        "_breaths_min",
        Scale::Hundredth,
    ),
    (147, "avg_respiration_rate", "", Scale::Whole),
    (148, "max_respiration_rate", "", Scale::Whole),
    (149, "total_grit", "_kgrit", Scale::Whole),
    (150, "total_flow", "_flow", Scale::Whole),
    (151, "jump_count", "", Scale::Whole),
    (153, "avg_grit", "_kgrit", Scale::Whole),
    (154, "avg_flow", "_flow", Scale::Whole),
    (156, "total_fractional_ascent", "_m", Scale::Whole),
    (157, "total_fractional_descent", "_m", Scale::Whole),
    (158, "avg_core_temperature", "_c", Scale::Whole),
    (159, "min_core_temperature", "_c", Scale::Whole),
    (160, "max_core_temperature", "_c", Scale::Whole),
    (253, "timestamp", "_s", Scale::Time),
    (254, "message_index", "", Scale::Whole),
];

// The fields of `record`.
pub const RECORD: &[FieldRow] = &[
    (0, "position_lat", "_deg", Scale::Semicircles),
    (1, "position_long", "_deg", Scale::Semicircles),
    (2, "altitude", "_m", Scale::Height),
    (3, "heart_rate", "_bpm", Scale::Whole),
    (4, "cadence", "_rpm", Scale::Whole),
    (5, "distance", "_m", Scale::Hundredth),
    (6, "speed", "_m_s", Scale::Thousandth),
    (7, "power", "_w", Scale::Whole),
    (8, "compressed_speed_distance", "", Scale::Whole),
    (9, "grade", "_percent", Scale::Hundredth),
    (10, "resistance", "", Scale::Whole),
    (11, "time_from_course", "_s", Scale::Thousandth),
    (12, "cycle_length", "_m", Scale::Hundredth),
    (13, "temperature", "_c", Scale::Whole),
    (17, "speed_1s", "_m_s", Scale::Sixteenth),
    (18, "cycles", "_cycles", Scale::Whole),
    (19, "total_cycles", "_cycles", Scale::Whole),
    (28, "compressed_accumulated_power", "_w", Scale::Whole),
    (29, "accumulated_power", "_w", Scale::Whole),
    (30, "left_right_balance", "", Scale::Whole),
    (31, "gps_accuracy", "_m", Scale::Whole),
    (32, "vertical_speed", "_m_s", Scale::Thousandth),
    (33, "calories", "_kcal", Scale::Whole),
    (39, "vertical_oscillation", "_mm", Scale::Tenth),
    (40, "stance_time_percent", "_percent", Scale::Hundredth),
    (41, "stance_time", "_ms", Scale::Tenth),
    (42, "activity_type", "", Scale::Whole),
    (43, "left_torque_effectiveness", "_percent", Scale::Half),
    (44, "right_torque_effectiveness", "_percent", Scale::Half),
    (45, "left_pedal_smoothness", "_percent", Scale::Half),
    (46, "right_pedal_smoothness", "_percent", Scale::Half),
    (47, "combined_pedal_smoothness", "_percent", Scale::Half),
    (48, "time128", "_s", Scale::Part128),
    (49, "stroke_type", "", Scale::Whole),
    (50, "zone", "", Scale::Whole),
    (51, "ball_speed", "_m_s", Scale::Hundredth),
    (52, "cadence256", "_rpm", Scale::Part256),
    (53, "fractional_cadence", "_rpm", Scale::Part128),
    (54, "total_hemoglobin_conc", "_g_dl", Scale::Hundredth),
    (55, "total_hemoglobin_conc_min", "_g_dl", Scale::Hundredth),
    (56, "total_hemoglobin_conc_max", "_g_dl", Scale::Hundredth),
    (57, "saturated_hemoglobin_percent", "_percent", Scale::Tenth),
    (
        58,
        "saturated_hemoglobin_percent_min",
        "_percent",
        Scale::Tenth,
    ),
    (
        59,
        "saturated_hemoglobin_percent_max",
        "_percent",
        Scale::Tenth,
    ),
    (62, "device_index", "", Scale::Whole),
    (67, "left_pco", "_mm", Scale::Whole),
    (68, "right_pco", "_mm", Scale::Whole),
    (69, "left_power_phase", "_deg", Scale::Phase),
    (70, "left_power_phase_peak", "_deg", Scale::Phase),
    (71, "right_power_phase", "_deg", Scale::Phase),
    (72, "right_power_phase_peak", "_deg", Scale::Phase),
    (73, "enhanced_speed", "_m_s", Scale::Thousandth),
    (78, "enhanced_altitude", "_m", Scale::Height),
    (81, "battery_soc", "_percent", Scale::Half),
    (82, "motor_power", "_w", Scale::Whole),
    (83, "vertical_ratio", "_percent", Scale::Hundredth),
    (84, "stance_time_balance", "_percent", Scale::Hundredth),
    (85, "step_length", "_mm", Scale::Tenth),
    (91, "absolute_pressure", "_pa", Scale::Whole),
    (92, "depth", "_m", Scale::Thousandth),
    (93, "next_stop_depth", "_m", Scale::Thousandth),
    (94, "next_stop_time", "_s", Scale::Whole),
    (95, "time_to_surface", "_s", Scale::Whole),
    (96, "ndl_time", "_s", Scale::Whole),
    (97, "cns_load", "_percent", Scale::Whole),
    (98, "n2_load", "_percent", Scale::Whole),
    (99, "respiration_rate", "", Scale::Whole),
    (
        108,
        "enhanced_respiration_rate",
        "_breaths_min",
        Scale::Hundredth,
    ),
    (114, "grit", "", Scale::Whole),
    (115, "flow", "", Scale::Whole),
    (117, "ebike_travel_range", "_km", Scale::Whole),
    (118, "ebike_battery_level", "_percent", Scale::Whole),
    (119, "ebike_assist_mode", "", Scale::Whole),
    (120, "ebike_assist_level_percent", "_percent", Scale::Whole),
    (123, "air_time_remaining", "", Scale::Whole),
    (124, "pressure_sac", "_bar_min", Scale::Hundredth),
    (125, "volume_sac", "_l_min", Scale::Hundredth),
    (126, "rmv", "_l_min", Scale::Hundredth),
    (127, "ascent_rate", "_m_s", Scale::Thousandth),
    (129, "po2", "_percent", Scale::Hundredth),
    (139, "core_temperature", "_c", Scale::Hundredth),
    (253, "timestamp", "_s", Scale::Time),
];

// The fields of `event`.
pub const EVENT: &[FieldRow] = &[
    (0, "event", "", Scale::Whole),
    (1, "event_type", "", Scale::Whole),
    (2, "data16", "", Scale::Whole),
    (3, "data", "", Scale::Whole),
    (4, "event_group", "", Scale::Whole),
    (7, "score", "", Scale::Whole),
    (8, "opponent_score", "", Scale::Whole),
    (9, "front_gear_num", "", Scale::Whole),
    (10, "front_gear", "", Scale::Whole),
    (11, "rear_gear_num", "", Scale::Whole),
    (12, "rear_gear", "", Scale::Whole),
    (13, "device_index", "", Scale::Whole),
    (21, "radar_threat_level_max", "", Scale::Whole),
    (22, "radar_threat_count", "", Scale::Whole),
    (23, "radar_threat_avg_approach_speed", "_m_s", Scale::Whole),
    (24, "radar_threat_max_approach_speed", "_m_s", Scale::Whole),
    (253, "timestamp", "_s", Scale::Time),
];

// The fields of `device_info`.
pub const DEVICE_INFO: &[FieldRow] = &[
    (0, "device_index", "", Scale::Whole),
    (1, "device_type", "", Scale::Whole),
    (2, "manufacturer", "", Scale::Whole),
    (3, "serial_number", "", Scale::Whole),
    (4, "product", "", Scale::Whole),
    (5, "software_version", "", Scale::Hundredth),
    (6, "hardware_version", "", Scale::Whole),
    (7, "cum_operating_time", "_s", Scale::Whole),
    (10, "battery_voltage", "_v", Scale::Part256),
    (11, "battery_status", "", Scale::Whole),
    (18, "sensor_position", "", Scale::Whole),
    (19, "descriptor", "", Scale::Whole),
    (20, "ant_transmission_type", "", Scale::Whole),
    (21, "ant_device_number", "", Scale::Whole),
    (22, "ant_network", "", Scale::Whole),
    (25, "source_type", "", Scale::Whole),
    (27, "product_name", "", Scale::Whole),
    (32, "battery_level", "_percent", Scale::Whole),
    (253, "timestamp", "_s", Scale::Time),
];

// The fields of `workout`.
pub const WORKOUT: &[FieldRow] = &[
    (4, "sport", "", Scale::Whole),
    (5, "capabilities", "", Scale::Whole),
    (6, "num_valid_steps", "", Scale::Whole),
    (8, "wkt_name", "", Scale::Whole),
    (11, "sub_sport", "", Scale::Whole),
    (14, "pool_length", "_m", Scale::Hundredth),
    (15, "pool_length_unit", "", Scale::Whole),
];

// The fields of `workout_step`.
pub const WORKOUT_STEP: &[FieldRow] = &[
    (0, "wkt_step_name", "", Scale::Whole),
    (1, "duration_type", "", Scale::Whole),
    (2, "duration_value", "", Scale::Whole),
    (3, "target_type", "", Scale::Whole),
    (4, "target_value", "", Scale::Whole),
    (5, "custom_target_value_low", "", Scale::Whole),
    (6, "custom_target_value_high", "", Scale::Whole),
    (7, "intensity", "", Scale::Whole),
    (8, "notes", "", Scale::Whole),
    (9, "equipment", "", Scale::Whole),
    (10, "exercise_category", "", Scale::Whole),
    (11, "exercise_name", "", Scale::Whole),
    (12, "exercise_weight", "_kg", Scale::Hundredth),
    (13, "weight_display_unit", "", Scale::Whole),
    (19, "secondary_target_type", "", Scale::Whole),
    (20, "secondary_target_value", "", Scale::Whole),
    (254, "message_index", "", Scale::Whole),
];

// The fields of `schedule`.
pub const SCHEDULE: &[FieldRow] = &[
    (0, "manufacturer", "", Scale::Whole),
    (1, "product", "", Scale::Whole),
    (2, "serial_number", "", Scale::Whole),
    (3, "time_created", "_s", Scale::Time),
    (4, "completed", "", Scale::Whole),
    (5, "type", "", Scale::Whole),
    (6, "scheduled_time", "_s", Scale::Whole),
];

// The fields of `weight_scale`.
pub const WEIGHT_SCALE: &[FieldRow] = &[
    (0, "weight", "_kg", Scale::Hundredth),
    (1, "percent_fat", "_percent", Scale::Hundredth),
    (2, "percent_hydration", "_percent", Scale::Hundredth),
    (3, "visceral_fat_mass", "_kg", Scale::Hundredth),
    (4, "bone_mass", "_kg", Scale::Hundredth),
    (5, "muscle_mass", "_kg", Scale::Hundredth),
    (7, "basal_met", "_kcal_day", Scale::Quarter),
    (8, "physique_rating", "", Scale::Whole),
    (9, "active_met", "_kcal_day", Scale::Quarter),
    (10, "metabolic_age", "_years", Scale::Whole),
    (11, "visceral_fat_rating", "", Scale::Whole),
    (12, "user_profile_index", "", Scale::Whole),
    (253, "timestamp", "_s", Scale::Time),
];

// The fields of `course`.
pub const COURSE: &[FieldRow] = &[
    (4, "sport", "", Scale::Whole),
    (5, "name", "", Scale::Whole),
    (6, "capabilities", "", Scale::Whole),
    (7, "sub_sport", "", Scale::Whole),
];

// The fields of `course_point`.
pub const COURSE_POINT: &[FieldRow] = &[
    (1, "timestamp", "_s", Scale::Time),
    (2, "position_lat", "_deg", Scale::Semicircles),
    (3, "position_long", "_deg", Scale::Semicircles),
    (4, "distance", "_m", Scale::Hundredth),
    (5, "type", "", Scale::Whole),
    (6, "name", "", Scale::Whole),
    (8, "favorite", "", Scale::Whole),
    (254, "message_index", "", Scale::Whole),
];

// The fields of `totals`.
pub const TOTALS: &[FieldRow] = &[
    (0, "timer_time", "_s", Scale::Whole),
    (1, "distance", "_m", Scale::Whole),
    (2, "calories", "_kcal", Scale::Whole),
    (3, "sport", "", Scale::Whole),
    (4, "elapsed_time", "_s", Scale::Whole),
    (5, "sessions", "", Scale::Whole),
    (6, "active_time", "_s", Scale::Whole),
    (9, "sport_index", "", Scale::Whole),
    (253, "timestamp", "_s", Scale::Time),
    (254, "message_index", "", Scale::Whole),
];

// The fields of `activity`.
pub const ACTIVITY: &[FieldRow] = &[
    (0, "total_timer_time", "_s", Scale::Thousandth),
    (1, "num_sessions", "", Scale::Whole),
    (2, "type", "", Scale::Whole),
    (3, "event", "", Scale::Whole),
    (4, "event_type", "", Scale::Whole),
    (5, "local_timestamp", "_s", Scale::Whole),
    (6, "event_group", "", Scale::Whole),
    (253, "timestamp", "_s", Scale::Time),
];

// The fields of `software`.
pub const SOFTWARE: &[FieldRow] = &[
    (3, "version", "", Scale::Hundredth),
    (5, "part_number", "", Scale::Whole),
    (254, "message_index", "", Scale::Whole),
];

// The fields of `file_capabilities`.
pub const FILE_CAPABILITIES: &[FieldRow] = &[
    (0, "type", "", Scale::Whole),
    (1, "flags", "", Scale::Whole),
    (2, "directory", "", Scale::Whole),
    (3, "max_count", "", Scale::Whole),
    (4, "max_size", "_bytes", Scale::Whole),
    (254, "message_index", "", Scale::Whole),
];

// The fields of `mesg_capabilities`.
pub const MESG_CAPABILITIES: &[FieldRow] = &[
    (0, "file", "", Scale::Whole),
    (1, "mesg_num", "", Scale::Whole),
    (2, "count_type", "", Scale::Whole),
    (3, "count", "", Scale::Whole),
    (254, "message_index", "", Scale::Whole),
];

// The fields of `field_capabilities`.
pub const FIELD_CAPABILITIES: &[FieldRow] = &[
    (0, "file", "", Scale::Whole),
    (1, "mesg_num", "", Scale::Whole),
    (2, "field_num", "", Scale::Whole),
    (3, "count", "", Scale::Whole),
    (254, "message_index", "", Scale::Whole),
];

// The fields of `file_creator`.
pub const FILE_CREATOR: &[FieldRow] = &[
    (0, "software_version", "", Scale::Whole),
    (1, "hardware_version", "", Scale::Whole),
];

// The fields of `blood_pressure`.
pub const BLOOD_PRESSURE: &[FieldRow] = &[
    (0, "systolic_pressure", "_mmhg", Scale::Whole),
    (1, "diastolic_pressure", "_mmhg", Scale::Whole),
    (2, "mean_arterial_pressure", "_mmhg", Scale::Whole),
    (3, "map_3_sample_mean", "_mmhg", Scale::Whole),
    (4, "map_morning_values", "_mmhg", Scale::Whole),
    (5, "map_evening_values", "_mmhg", Scale::Whole),
    (6, "heart_rate", "_bpm", Scale::Whole),
    (7, "heart_rate_type", "", Scale::Whole),
    (8, "status", "", Scale::Whole),
    (9, "user_profile_index", "", Scale::Whole),
    (253, "timestamp", "_s", Scale::Time),
];

// The fields of `speed_zone`.
pub const SPEED_ZONE: &[FieldRow] = &[
    (0, "high_value", "_m_s", Scale::Thousandth),
    (1, "name", "", Scale::Whole),
    (254, "message_index", "", Scale::Whole),
];

// The fields of `monitoring`.
pub const MONITORING: &[FieldRow] = &[
    (0, "device_index", "", Scale::Whole),
    (1, "calories", "_kcal", Scale::Whole),
    (2, "distance", "_m", Scale::Hundredth),
    (3, "cycles", "_cycles", Scale::Half),
    (4, "active_time", "_s", Scale::Thousandth),
    (5, "activity_type", "", Scale::Whole),
    (6, "activity_subtype", "", Scale::Whole),
    (7, "activity_level", "", Scale::Whole),
    (8, "distance_16", "_m", Scale::Hundreds),
    (9, "cycles_16", "_cycles", Scale::Twos),
    (10, "active_time_16", "_s", Scale::Whole),
    (11, "local_timestamp", "_s", Scale::Whole),
    (12, "temperature", "_c", Scale::Hundredth),
    (14, "temperature_min", "_c", Scale::Hundredth),
    (15, "temperature_max", "_c", Scale::Hundredth),
    (16, "activity_time", "_min", Scale::Whole),
    (19, "active_calories", "_kcal", Scale::Whole),
    (24, "current_activity_type_intensity", "", Scale::Whole),
    (25, "timestamp_min_8", "_min", Scale::Whole),
    (26, "timestamp_16", "_s", Scale::Whole),
    (27, "heart_rate", "_bpm", Scale::Whole),
    (28, "intensity", "", Scale::Tenth),
    (29, "duration_min", "_min", Scale::Whole),
    (30, "duration", "_s", Scale::Whole),
    (31, "ascent", "_m", Scale::Thousandth),
    (32, "descent", "_m", Scale::Thousandth),
    (33, "moderate_activity_minutes", "_min", Scale::Whole),
    (34, "vigorous_activity_minutes", "_min", Scale::Whole),
    (253, "timestamp", "_s", Scale::Time),
];

// The fields of `training_file`.
pub const TRAINING_FILE: &[FieldRow] = &[
    (0, "type", "", Scale::Whole),
    (1, "manufacturer", "", Scale::Whole),
    (2, "product", "", Scale::Whole),
    (3, "serial_number", "", Scale::Whole),
    (4, "time_created", "_s", Scale::Time),
    (253, "timestamp", "_s", Scale::Time),
];

// The fields of `hrv`.
pub const HRV: &[FieldRow] = &[(0, "time", "_s", Scale::Thousandth)];

// The fields of `ant_rx`.
pub const ANT_RX: &[FieldRow] = &[
    (0, "fractional_timestamp", "_s", Scale::Part32768),
    (1, "mesg_id", "", Scale::Whole),
    (2, "mesg_data", "", Scale::Whole),
    (3, "channel_number", "", Scale::Whole),
    (4, "data", "", Scale::Whole),
    (253, "timestamp", "_s", Scale::Time),
];

// The fields of `ant_tx`.
pub const ANT_TX: &[FieldRow] = &[
    (0, "fractional_timestamp", "_s", Scale::Part32768),
    (1, "mesg_id", "", Scale::Whole),
    (2, "mesg_data", "", Scale::Whole),
    (3, "channel_number", "", Scale::Whole),
    (4, "data", "", Scale::Whole),
    (253, "timestamp", "_s", Scale::Time),
];

// The fields of `ant_channel_id`.
pub const ANT_CHANNEL_ID: &[FieldRow] = &[
    (0, "channel_number", "", Scale::Whole),
    (1, "device_type", "", Scale::Whole),
    (2, "device_number", "", Scale::Whole),
    (3, "transmission_type", "", Scale::Whole),
    (4, "device_index", "", Scale::Whole),
];

// The fields of `length`.
pub const LENGTH: &[FieldRow] = &[
    (0, "event", "", Scale::Whole),
    (1, "event_type", "", Scale::Whole),
    (2, "start_time", "_s", Scale::Time),
    (3, "total_elapsed_time", "_s", Scale::Thousandth),
    (4, "total_timer_time", "_s", Scale::Thousandth),
    (5, "total_strokes", "_strokes", Scale::Whole),
    (6, "avg_speed", "_m_s", Scale::Thousandth),
    (7, "swim_stroke", "", Scale::Whole),
    (9, "avg_swimming_cadence", "_strokes_min", Scale::Whole),
    (10, "event_group", "", Scale::Whole),
    (11, "total_calories", "_kcal", Scale::Whole),
    (12, "length_type", "", Scale::Whole),
    (18, "player_score", "", Scale::Whole),
    (19, "opponent_score", "", Scale::Whole),
    (20, "stroke_count", "_counts", Scale::Whole),
    (21, "zone_count", "_counts", Scale::Whole),
    (
        22,
        "enhanced_avg_respiration_rate",
        "_breaths_min",
        Scale::Hundredth,
    ),
    (
        23,
        "enhanced_max_respiration_rate",
        "_breaths_min",
        Scale::Hundredth,
    ),
    (24, "avg_respiration_rate", "", Scale::Whole),
    (25, "max_respiration_rate", "", Scale::Whole),
    (253, "timestamp", "_s", Scale::Time),
    (254, "message_index", "", Scale::Whole),
];

// The fields of `monitoring_info`.
pub const MONITORING_INFO: &[FieldRow] = &[
    (0, "local_timestamp", "_s", Scale::Whole),
    (1, "activity_type", "", Scale::Whole),
    (3, "cycles_to_distance", "_m_cycle", Scale::Part5000),
    (4, "cycles_to_calories", "_kcal_cycle", Scale::Part5000),
    (5, "resting_metabolic_rate", "_kcal_day", Scale::Whole),
    (253, "timestamp", "_s", Scale::Time),
];

// The fields of `pad`.
pub const PAD: &[FieldRow] = &[(0, "pad", "", Scale::Whole)];

// The fields of `slave_device`.
pub const SLAVE_DEVICE: &[FieldRow] = &[
    (0, "manufacturer", "", Scale::Whole),
    (1, "product", "", Scale::Whole),
];

// The fields of `connectivity`.
pub const CONNECTIVITY: &[FieldRow] = &[
    (0, "bluetooth_enabled", "", Scale::Whole),
    (1, "bluetooth_le_enabled", "", Scale::Whole),
    (2, "ant_enabled", "", Scale::Whole),
    (3, "name", "", Scale::Whole),
    (4, "live_tracking_enabled", "", Scale::Whole),
    (5, "weather_conditions_enabled", "", Scale::Whole),
    (6, "weather_alerts_enabled", "", Scale::Whole),
    (7, "auto_activity_upload_enabled", "", Scale::Whole),
    (8, "course_download_enabled", "", Scale::Whole),
    (9, "workout_download_enabled", "", Scale::Whole),
    (10, "gps_ephemeris_download_enabled", "", Scale::Whole),
    (11, "incident_detection_enabled", "", Scale::Whole),
    (12, "grouptrack_enabled", "", Scale::Whole),
];

// The fields of `weather_conditions`.
pub const WEATHER_CONDITIONS: &[FieldRow] = &[
    (0, "weather_report", "", Scale::Whole),
    (1, "temperature", "_c", Scale::Whole),
    (2, "condition", "", Scale::Whole),
    (3, "wind_direction", "_deg", Scale::Whole),
    (4, "wind_speed", "_m_s", Scale::Thousandth),
    (5, "precipitation_probability", "", Scale::Whole),
    (6, "temperature_feels_like", "_c", Scale::Whole),
    (7, "relative_humidity", "_percent", Scale::Whole),
    (8, "location", "", Scale::Whole),
    (9, "observed_at_time", "_s", Scale::Time),
    (10, "observed_location_lat", "_deg", Scale::Semicircles),
    (11, "observed_location_long", "_deg", Scale::Semicircles),
    (12, "day_of_week", "", Scale::Whole),
    (13, "high_temperature", "_c", Scale::Whole),
    (14, "low_temperature", "_c", Scale::Whole),
    (253, "timestamp", "_s", Scale::Time),
];

// The fields of `weather_alert`.
pub const WEATHER_ALERT: &[FieldRow] = &[
    (0, "report_id", "", Scale::Whole),
    (1, "issue_time", "_s", Scale::Time),
    (2, "expire_time", "_s", Scale::Time),
    (3, "severity", "", Scale::Whole),
    (4, "type", "", Scale::Whole),
    (253, "timestamp", "_s", Scale::Time),
];

// The fields of `cadence_zone`.
pub const CADENCE_ZONE: &[FieldRow] = &[
    (0, "high_value", "_rpm", Scale::Whole),
    (1, "name", "", Scale::Whole),
    (254, "message_index", "", Scale::Whole),
];

// The fields of `hr`.
pub const HR: &[FieldRow] = &[
    (0, "fractional_timestamp", "_s", Scale::Part32768),
    (1, "time256", "_s", Scale::Part256),
    (6, "filtered_bpm", "_bpm", Scale::Whole),
    (9, "event_timestamp", "_s", Scale::Part1024),
    (10, "event_timestamp_12", "_s", Scale::Part1024),
    (253, "timestamp", "_s", Scale::Time),
];

// The fields of `segment_lap`.
pub const SEGMENT_LAP: &[FieldRow] = &[
    (0, "event", "", Scale::Whole),
    (1, "event_type", "", Scale::Whole),
    (2, "start_time", "_s", Scale::Time),
    (3, "start_position_lat", "_deg", Scale::Semicircles),
    (4, "start_position_long", "_deg", Scale::Semicircles),
    (5, "end_position_lat", "_deg", Scale::Semicircles),
    (6, "end_position_long", "_deg", Scale::Semicircles),
    (7, "total_elapsed_time", "_s", Scale::Thousandth),
    (8, "total_timer_time", "_s", Scale::Thousandth),
    (9, "total_distance", "_m", Scale::Hundredth),
    (10, "total_cycles", "_cycles", Scale::Whole),
    (11, "total_calories", "_kcal", Scale::Whole),
    (12, "total_fat_calories", "_kcal", Scale::Whole),
    (13, "avg_speed", "_m_s", Scale::Thousandth),
    (14, "max_speed", "_m_s", Scale::Thousandth),
    (15, "avg_heart_rate", "_bpm", Scale::Whole),
    (16, "max_heart_rate", "_bpm", Scale::Whole),
    (17, "avg_cadence", "_rpm", Scale::Whole),
    (18, "max_cadence", "_rpm", Scale::Whole),
    (19, "avg_power", "_w", Scale::Whole),
    (20, "max_power", "_w", Scale::Whole),
    (21, "total_ascent", "_m", Scale::Whole),
    (22, "total_descent", "_m", Scale::Whole),
    (23, "sport", "", Scale::Whole),
    (24, "event_group", "", Scale::Whole),
    (25, "nec_lat", "_deg", Scale::Semicircles),
    (26, "nec_long", "_deg", Scale::Semicircles),
    (27, "swc_lat", "_deg", Scale::Semicircles),
    (28, "swc_long", "_deg", Scale::Semicircles),
    (29, "name", "", Scale::Whole),
    (30, "normalized_power", "_w", Scale::Whole),
    (31, "left_right_balance", "", Scale::Whole),
    (32, "sub_sport", "", Scale::Whole),
    (33, "total_work", "_j", Scale::Whole),
    (34, "avg_altitude", "_m", Scale::Height),
    (35, "max_altitude", "_m", Scale::Height),
    (36, "gps_accuracy", "_m", Scale::Whole),
    (37, "avg_grade", "_percent", Scale::Hundredth),
    (38, "avg_pos_grade", "_percent", Scale::Hundredth),
    (39, "avg_neg_grade", "_percent", Scale::Hundredth),
    (40, "max_pos_grade", "_percent", Scale::Hundredth),
    (41, "max_neg_grade", "_percent", Scale::Hundredth),
    (42, "avg_temperature", "_c", Scale::Whole),
    (43, "max_temperature", "_c", Scale::Whole),
    (44, "total_moving_time", "_s", Scale::Thousandth),
    (45, "avg_pos_vertical_speed", "_m_s", Scale::Thousandth),
    (46, "avg_neg_vertical_speed", "_m_s", Scale::Thousandth),
    (47, "max_pos_vertical_speed", "_m_s", Scale::Thousandth),
    (48, "max_neg_vertical_speed", "_m_s", Scale::Thousandth),
    (49, "time_in_hr_zone", "_s", Scale::Thousandth),
    (50, "time_in_speed_zone", "_s", Scale::Thousandth),
    (51, "time_in_cadence_zone", "_s", Scale::Thousandth),
    (52, "time_in_power_zone", "_s", Scale::Thousandth),
    (53, "repetition_num", "", Scale::Whole),
    (54, "min_altitude", "_m", Scale::Height),
    (55, "min_heart_rate", "_bpm", Scale::Whole),
    (56, "active_time", "_s", Scale::Thousandth),
    (57, "wkt_step_index", "", Scale::Whole),
    (58, "sport_event", "", Scale::Whole),
    (59, "avg_left_torque_effectiveness", "_percent", Scale::Half),
    (
        60,
        "avg_right_torque_effectiveness",
        "_percent",
        Scale::Half,
    ),
    (61, "avg_left_pedal_smoothness", "_percent", Scale::Half),
    (62, "avg_right_pedal_smoothness", "_percent", Scale::Half),
    (63, "avg_combined_pedal_smoothness", "_percent", Scale::Half),
    (64, "status", "", Scale::Whole),
    (65, "uuid", "", Scale::Whole),
    (66, "avg_fractional_cadence", "_rpm", Scale::Part128),
    (67, "max_fractional_cadence", "_rpm", Scale::Part128),
    (68, "total_fractional_cycles", "_cycles", Scale::Part128),
    (69, "front_gear_shift_count", "", Scale::Whole),
    (70, "rear_gear_shift_count", "", Scale::Whole),
    (71, "time_standing", "_s", Scale::Thousandth),
    (72, "stand_count", "", Scale::Whole),
    (73, "avg_left_pco", "_mm", Scale::Whole),
    (74, "avg_right_pco", "_mm", Scale::Whole),
    (75, "avg_left_power_phase", "_deg", Scale::Phase),
    (76, "avg_left_power_phase_peak", "_deg", Scale::Phase),
    (77, "avg_right_power_phase", "_deg", Scale::Phase),
    (78, "avg_right_power_phase_peak", "_deg", Scale::Phase),
    (79, "avg_power_position", "_w", Scale::Whole),
    (80, "max_power_position", "_w", Scale::Whole),
    (81, "avg_cadence_position", "_rpm", Scale::Whole),
    (82, "max_cadence_position", "_rpm", Scale::Whole),
    (83, "manufacturer", "", Scale::Whole),
    (84, "total_grit", "_kgrit", Scale::Whole),
    (85, "total_flow", "_flow", Scale::Whole),
    (86, "avg_grit", "_kgrit", Scale::Whole),
    (87, "avg_flow", "_flow", Scale::Whole),
    (89, "total_fractional_ascent", "_m", Scale::Whole),
    (90, "total_fractional_descent", "_m", Scale::Whole),
    (91, "enhanced_avg_altitude", "_m", Scale::Fifth),
    (92, "enhanced_max_altitude", "_m", Scale::Fifth),
    (93, "enhanced_min_altitude", "_m", Scale::Fifth),
    (253, "timestamp", "_s", Scale::Time),
    (254, "message_index", "", Scale::Whole),
];

// The fields of `memo_glob`.
pub const MEMO_GLOB: &[FieldRow] = &[
    (0, "memo", "", Scale::Whole),
    (1, "message_number", "", Scale::Whole),
    (2, "message_index", "", Scale::Whole),
    (250, "part_index", "", Scale::Whole),
];

// The fields of `segment_id`.
pub const SEGMENT_ID: &[FieldRow] = &[
    (0, "name", "", Scale::Whole),
    (1, "uuid", "", Scale::Whole),
    (2, "sport", "", Scale::Whole),
    (3, "enabled", "", Scale::Whole),
    (4, "user_profile_primary_key", "", Scale::Whole),
    (5, "device_id", "", Scale::Whole),
    (6, "default_race_leader", "", Scale::Whole),
    (7, "delete_status", "", Scale::Whole),
    (8, "selection_type", "", Scale::Whole),
];

// The fields of `segment_leaderboard_entry`.
pub const SEGMENT_LEADERBOARD_ENTRY: &[FieldRow] = &[
    (0, "name", "", Scale::Whole),
    (1, "type", "", Scale::Whole),
    (2, "group_primary_key", "", Scale::Whole),
    (3, "activity_id", "", Scale::Whole),
    (4, "segment_time", "_s", Scale::Thousandth),
    (5, "activity_id_string", "", Scale::Whole),
    (254, "message_index", "", Scale::Whole),
];

// The fields of `segment_point`.
pub const SEGMENT_POINT: &[FieldRow] = &[
    (1, "position_lat", "_deg", Scale::Semicircles),
    (2, "position_long", "_deg", Scale::Semicircles),
    (3, "distance", "_m", Scale::Hundredth),
    (4, "altitude", "_m", Scale::Height),
    (5, "leader_time", "_s", Scale::Thousandth),
    (6, "enhanced_altitude", "_m", Scale::Fifth),
    (254, "message_index", "", Scale::Whole),
];

// The fields of `segment_file`.
pub const SEGMENT_FILE: &[FieldRow] = &[
    (1, "file_uuid", "", Scale::Whole),
    (3, "enabled", "", Scale::Whole),
    (4, "user_profile_primary_key", "", Scale::Whole),
    (7, "leader_type", "", Scale::Whole),
    (8, "leader_group_primary_key", "", Scale::Whole),
    (9, "leader_activity_id", "", Scale::Whole),
    (10, "leader_activity_id_string", "", Scale::Whole),
    (11, "default_race_leader", "", Scale::Whole),
    (254, "message_index", "", Scale::Whole),
];

// The fields of `workout_session`.
pub const WORKOUT_SESSION: &[FieldRow] = &[
    (0, "sport", "", Scale::Whole),
    (1, "sub_sport", "", Scale::Whole),
    (2, "num_valid_steps", "", Scale::Whole),
    (3, "first_step_index", "", Scale::Whole),
    (4, "pool_length", "_m", Scale::Hundredth),
    (5, "pool_length_unit", "", Scale::Whole),
    (254, "message_index", "", Scale::Whole),
];

// The fields of `watchface_settings`.
pub const WATCHFACE_SETTINGS: &[FieldRow] = &[
    (0, "mode", "", Scale::Whole),
    (1, "layout", "", Scale::Whole),
    (254, "message_index", "", Scale::Whole),
];

// The fields of `gps_metadata`.
pub const GPS_METADATA: &[FieldRow] = &[
    (0, "timestamp_ms", "_ms", Scale::Whole),
    (1, "position_lat", "_deg", Scale::Semicircles),
    (2, "position_long", "_deg", Scale::Semicircles),
    (3, "enhanced_altitude", "_m", Scale::Height),
    (4, "enhanced_speed", "_m_s", Scale::Thousandth),
    (5, "heading", "_deg", Scale::Hundredth),
    (6, "utc_timestamp", "_s", Scale::Time),
    (7, "velocity", "_m_s", Scale::Hundredth),
    (253, "timestamp", "_s", Scale::Time),
];

// The fields of `camera_event`.
pub const CAMERA_EVENT: &[FieldRow] = &[
    (0, "timestamp_ms", "_ms", Scale::Whole),
    (1, "camera_event_type", "", Scale::Whole),
    (2, "camera_file_uuid", "", Scale::Whole),
    (3, "camera_orientation", "", Scale::Whole),
    (253, "timestamp", "_s", Scale::Time),
];

// The fields of `timestamp_correlation`.
pub const TIMESTAMP_CORRELATION: &[FieldRow] = &[
    (0, "fractional_timestamp", "_s", Scale::Part32768),
    (1, "system_timestamp", "_s", Scale::Time),
    (2, "fractional_system_timestamp", "_s", Scale::Part32768),
    (3, "local_timestamp", "_s", Scale::Whole),
    (4, "timestamp_ms", "_ms", Scale::Whole),
    (5, "system_timestamp_ms", "_ms", Scale::Whole),
    (253, "timestamp", "_s", Scale::Time),
];

// The fields of `gyroscope_data`.
pub const GYROSCOPE_DATA: &[FieldRow] = &[
    (0, "timestamp_ms", "_ms", Scale::Whole),
    (1, "sample_time_offset", "_ms", Scale::Whole),
    (2, "gyro_x", "_counts", Scale::Whole),
    (3, "gyro_y", "_counts", Scale::Whole),
    (4, "gyro_z", "_counts", Scale::Whole),
    (5, "calibrated_gyro_x", "_deg_s", Scale::Whole),
    (6, "calibrated_gyro_y", "_deg_s", Scale::Whole),
    (7, "calibrated_gyro_z", "_deg_s", Scale::Whole),
    (253, "timestamp", "_s", Scale::Time),
];

// The fields of `accelerometer_data`.
pub const ACCELEROMETER_DATA: &[FieldRow] = &[
    (0, "timestamp_ms", "_ms", Scale::Whole),
    (1, "sample_time_offset", "_ms", Scale::Whole),
    (2, "accel_x", "_counts", Scale::Whole),
    (3, "accel_y", "_counts", Scale::Whole),
    (4, "accel_z", "_counts", Scale::Whole),
    (5, "calibrated_accel_x", "_g", Scale::Whole),
    (6, "calibrated_accel_y", "_g", Scale::Whole),
    (7, "calibrated_accel_z", "_g", Scale::Whole),
    (8, "compressed_calibrated_accel_x", "_mg", Scale::Whole),
    (9, "compressed_calibrated_accel_y", "_mg", Scale::Whole),
    (10, "compressed_calibrated_accel_z", "_mg", Scale::Whole),
    (253, "timestamp", "_s", Scale::Time),
];

// The fields of `three_d_sensor_calibration`.
pub const THREE_D_SENSOR_CALIBRATION: &[FieldRow] = &[
    (0, "sensor_type", "", Scale::Whole),
    (1, "calibration_factor", "", Scale::Whole),
    (2, "calibration_divisor", "_counts", Scale::Whole),
    (3, "level_shift", "", Scale::Whole),
    (4, "offset_cal", "", Scale::Whole),
    (5, "orientation_matrix", "", Scale::Part65535),
    (253, "timestamp", "_s", Scale::Time),
];

// The fields of `video_frame`.
pub const VIDEO_FRAME: &[FieldRow] = &[
    (0, "timestamp_ms", "_ms", Scale::Whole),
    (1, "frame_number", "", Scale::Whole),
    (253, "timestamp", "_s", Scale::Time),
];

// The fields of `obdii_data`.
pub const OBDII_DATA: &[FieldRow] = &[
    (0, "timestamp_ms", "_ms", Scale::Whole),
    (1, "time_offset", "_ms", Scale::Whole),
    (2, "pid", "", Scale::Whole),
    (3, "raw_data", "", Scale::Whole),
    (4, "pid_data_size", "", Scale::Whole),
    (5, "system_time", "", Scale::Whole),
    (6, "start_timestamp", "_s", Scale::Time),
    (7, "start_timestamp_ms", "_ms", Scale::Whole),
    (253, "timestamp", "_s", Scale::Time),
];

// The fields of `nmea_sentence`.
pub const NMEA_SENTENCE: &[FieldRow] = &[
    (0, "timestamp_ms", "_ms", Scale::Whole),
    (1, "sentence", "", Scale::Whole),
    (253, "timestamp", "_s", Scale::Time),
];

// The fields of `aviation_attitude`.
pub const AVIATION_ATTITUDE: &[FieldRow] = &[
    (0, "timestamp_ms", "_ms", Scale::Whole),
    (1, "system_time", "_ms", Scale::Whole),
    (2, "pitch", "_rad", Scale::Attitude),
    (3, "roll", "_rad", Scale::Attitude),
    (4, "accel_lateral", "_m_s2", Scale::Hundredth),
    (5, "accel_normal", "_m_s2", Scale::Hundredth),
    (6, "turn_rate", "_rad_s", Scale::Part1024),
    (7, "stage", "", Scale::Whole),
    (8, "attitude_stage_complete", "_percent", Scale::Whole),
    (9, "track", "_rad", Scale::Attitude),
    (10, "validity", "", Scale::Whole),
    (253, "timestamp", "_s", Scale::Time),
];

// The fields of `video`.
pub const VIDEO: &[FieldRow] = &[
    (0, "url", "", Scale::Whole),
    (1, "hosting_provider", "", Scale::Whole),
    (2, "duration", "_ms", Scale::Whole),
];

// The fields of `video_title`.
pub const VIDEO_TITLE: &[FieldRow] = &[
    (0, "message_count", "", Scale::Whole),
    (1, "text", "", Scale::Whole),
    (254, "message_index", "", Scale::Whole),
];

// The fields of `video_description`.
pub const VIDEO_DESCRIPTION: &[FieldRow] = &[
    (0, "message_count", "", Scale::Whole),
    (1, "text", "", Scale::Whole),
    (254, "message_index", "", Scale::Whole),
];

// The fields of `video_clip`.
pub const VIDEO_CLIP: &[FieldRow] = &[
    (0, "clip_number", "", Scale::Whole),
    (1, "start_timestamp", "_s", Scale::Time),
    (2, "start_timestamp_ms", "_ms", Scale::Whole),
    (3, "end_timestamp", "_s", Scale::Time),
    (4, "end_timestamp_ms", "_ms", Scale::Whole),
    (6, "clip_start", "_ms", Scale::Whole),
    (7, "clip_end", "_ms", Scale::Whole),
];

// The fields of `ohr_settings`.
pub const OHR_SETTINGS: &[FieldRow] = &[
    (0, "enabled", "", Scale::Whole),
    (253, "timestamp", "_s", Scale::Time),
];

// The fields of `exd_screen_configuration`.
pub const EXD_SCREEN_CONFIGURATION: &[FieldRow] = &[
    (0, "screen_index", "", Scale::Whole),
    (1, "field_count", "", Scale::Whole),
    (2, "layout", "", Scale::Whole),
    (3, "screen_enabled", "", Scale::Whole),
];

// The fields of `exd_data_field_configuration`.
pub const EXD_DATA_FIELD_CONFIGURATION: &[FieldRow] = &[
    (0, "screen_index", "", Scale::Whole),
    (1, "concept_field", "", Scale::Whole),
    (2, "field_id", "", Scale::Whole),
    (3, "concept_count", "", Scale::Whole),
    (4, "display_type", "", Scale::Whole),
    (5, "title", "", Scale::Whole),
];

// The fields of `exd_data_concept_configuration`.
pub const EXD_DATA_CONCEPT_CONFIGURATION: &[FieldRow] = &[
    (0, "screen_index", "", Scale::Whole),
    (1, "concept_field", "", Scale::Whole),
    (2, "field_id", "", Scale::Whole),
    (3, "concept_index", "", Scale::Whole),
    (4, "data_page", "", Scale::Whole),
    (5, "concept_key", "", Scale::Whole),
    (6, "scaling", "", Scale::Whole),
    (8, "data_units", "", Scale::Whole),
    (9, "qualifier", "", Scale::Whole),
    (10, "descriptor", "", Scale::Whole),
    (11, "is_signed", "", Scale::Whole),
];

// The fields of `field_description`.
pub const FIELD_DESCRIPTION: &[FieldRow] = &[
    (0, "developer_data_index", "", Scale::Whole),
    (1, "field_definition_number", "", Scale::Whole),
    (2, "fit_base_type_id", "", Scale::Whole),
    (3, "field_name", "", Scale::Whole),
    (4, "array", "", Scale::Whole),
    (5, "components", "", Scale::Whole),
    (6, "scale", "", Scale::Whole),
    (7, "offset", "", Scale::Whole),
    (8, "units", "", Scale::Whole),
    (9, "bits", "", Scale::Whole),
    (10, "accumulate", "", Scale::Whole),
    (13, "fit_base_unit_id", "", Scale::Whole),
    (14, "native_mesg_num", "", Scale::Whole),
    (15, "native_field_num", "", Scale::Whole),
];

// The fields of `developer_data_id`.
pub const DEVELOPER_DATA_ID: &[FieldRow] = &[
    (0, "developer_id", "", Scale::Whole),
    (1, "application_id", "", Scale::Whole),
    (2, "manufacturer_id", "", Scale::Whole),
    (3, "developer_data_index", "", Scale::Whole),
    (4, "application_version", "", Scale::Whole),
];

// The fields of `magnetometer_data`.
pub const MAGNETOMETER_DATA: &[FieldRow] = &[
    (0, "timestamp_ms", "_ms", Scale::Whole),
    (1, "sample_time_offset", "_ms", Scale::Whole),
    (2, "mag_x", "_counts", Scale::Whole),
    (3, "mag_y", "_counts", Scale::Whole),
    (4, "mag_z", "_counts", Scale::Whole),
    (5, "calibrated_mag_x", "_g", Scale::Whole),
    (6, "calibrated_mag_y", "_g", Scale::Whole),
    (7, "calibrated_mag_z", "_g", Scale::Whole),
    (253, "timestamp", "_s", Scale::Time),
];

// The fields of `barometer_data`.
pub const BAROMETER_DATA: &[FieldRow] = &[
    (0, "timestamp_ms", "_ms", Scale::Whole),
    (1, "sample_time_offset", "_ms", Scale::Whole),
    (2, "baro_pres", "_pa", Scale::Whole),
    (253, "timestamp", "_s", Scale::Time),
];

// The fields of `one_d_sensor_calibration`.
pub const ONE_D_SENSOR_CALIBRATION: &[FieldRow] = &[
    (0, "sensor_type", "", Scale::Whole),
    (1, "calibration_factor", "", Scale::Whole),
    (2, "calibration_divisor", "_counts", Scale::Whole),
    (3, "level_shift", "", Scale::Whole),
    (4, "offset_cal", "", Scale::Whole),
    (253, "timestamp", "_s", Scale::Time),
];

// The fields of `time_in_zone`.
pub const TIME_IN_ZONE: &[FieldRow] = &[
    (0, "reference_mesg", "", Scale::Whole),
    (1, "reference_index", "", Scale::Whole),
    (2, "time_in_hr_zone", "", Scale::Thousandth),
    (3, "time_in_speed_zone", "", Scale::Thousandth),
    (4, "time_in_cadence_zone", "", Scale::Thousandth),
    (5, "time_in_power_zone", "", Scale::Thousandth),
    (6, "hr_zone_high_boundary", "_bpm", Scale::Whole),
    (7, "speed_zone_high_boundary", "_m_s", Scale::Thousandth),
    (8, "cadence_zone_high_boundary", "_rpm", Scale::Whole),
    (9, "power_zone_high_boundary", "_w", Scale::Whole),
    (10, "hr_calc_type", "", Scale::Whole),
    (11, "max_heart_rate", "", Scale::Whole),
    (12, "resting_heart_rate", "", Scale::Whole),
    (13, "threshold_heart_rate", "", Scale::Whole),
    (14, "pwr_calc_type", "", Scale::Whole),
    (15, "functional_threshold_power", "", Scale::Whole),
    (253, "timestamp", "_s", Scale::Time),
];

// The fields of `set`.
pub const SET: &[FieldRow] = &[
    (0, "duration", "_s", Scale::Thousandth),
    (3, "repetitions", "", Scale::Whole),
    (4, "weight", "_kg", Scale::Sixteenth),
    (5, "set_type", "", Scale::Whole),
    (6, "start_time", "_s", Scale::Time),
    (7, "category", "", Scale::Whole),
    (8, "category_subtype", "", Scale::Whole),
    (9, "weight_display_unit", "", Scale::Whole),
    (10, "message_index", "", Scale::Whole),
    (11, "wkt_step_index", "", Scale::Whole),
    (253, "timestamp", "_s", Scale::Time),
];

// The fields of `stress_level`.
pub const STRESS_LEVEL: &[FieldRow] = &[
    (0, "stress_level_value", "", Scale::Whole),
    (1, "stress_level_time", "_s", Scale::Time),
];

// The fields of `dive_settings`.
pub const DIVE_SETTINGS: &[FieldRow] = &[
    (0, "name", "", Scale::Whole),
    (1, "model", "", Scale::Whole),
    (2, "gf_low", "_percent", Scale::Whole),
    (3, "gf_high", "_percent", Scale::Whole),
    (4, "water_type", "", Scale::Whole),
    (5, "water_density", "_kg_m3", Scale::Whole),
    (6, "po2_warn", "_percent", Scale::Hundredth),
    (7, "po2_critical", "_percent", Scale::Hundredth),
    (8, "po2_deco", "_percent", Scale::Hundredth),
    (9, "safety_stop_enabled", "", Scale::Whole),
    (10, "bottom_depth", "", Scale::Whole),
    (11, "bottom_time", "", Scale::Whole),
    (12, "apnea_countdown_enabled", "", Scale::Whole),
    (13, "apnea_countdown_time", "", Scale::Whole),
    (14, "backlight_mode", "", Scale::Whole),
    (15, "backlight_brightness", "", Scale::Whole),
    (16, "backlight_timeout", "", Scale::Whole),
    (17, "repeat_dive_interval", "_s", Scale::Whole),
    (18, "safety_stop_time", "_s", Scale::Whole),
    (19, "heart_rate_source_type", "", Scale::Whole),
    (20, "heart_rate_source", "", Scale::Whole),
    (21, "travel_gas", "", Scale::Whole),
    (22, "ccr_low_setpoint_switch_mode", "", Scale::Whole),
    (23, "ccr_low_setpoint", "", Scale::Hundredth),
    (24, "ccr_low_setpoint_depth", "_m", Scale::Thousandth),
    (25, "ccr_high_setpoint_switch_mode", "", Scale::Whole),
    (26, "ccr_high_setpoint", "_percent", Scale::Hundredth),
    (27, "ccr_high_setpoint_depth", "_m", Scale::Thousandth),
    (29, "gas_consumption_display", "", Scale::Whole),
    (30, "up_key_enabled", "", Scale::Whole),
    (35, "dive_sounds", "", Scale::Whole),
    (36, "last_stop_multiple", "", Scale::Tenth),
    (37, "no_fly_time_mode", "", Scale::Whole),
    (253, "timestamp", "_s", Scale::Time),
    (254, "message_index", "", Scale::Whole),
];

// The fields of `dive_gas`.
pub const DIVE_GAS: &[FieldRow] = &[
    (0, "helium_content", "_percent", Scale::Whole),
    (1, "oxygen_content", "_percent", Scale::Whole),
    (2, "status", "", Scale::Whole),
    (3, "mode", "", Scale::Whole),
    (254, "message_index", "", Scale::Whole),
];

// The fields of `dive_alarm`.
pub const DIVE_ALARM: &[FieldRow] = &[
    (0, "depth", "_m", Scale::Thousandth),
    (1, "time", "_s", Scale::Whole),
    (2, "enabled", "", Scale::Whole),
    (3, "alarm_type", "", Scale::Whole),
    (4, "sound", "", Scale::Whole),
    (5, "dive_types", "", Scale::Whole),
    (6, "id", "", Scale::Whole),
    (7, "popup_enabled", "", Scale::Whole),
    (8, "trigger_on_descent", "", Scale::Whole),
    (9, "trigger_on_ascent", "", Scale::Whole),
    (10, "repeating", "", Scale::Whole),
    (11, "speed", "", Scale::Thousandth),
    (254, "message_index", "", Scale::Whole),
];

// The fields of `exercise_title`.
pub const EXERCISE_TITLE: &[FieldRow] = &[
    (0, "exercise_category", "", Scale::Whole),
    (1, "exercise_name", "", Scale::Whole),
    (2, "wkt_step_name", "", Scale::Whole),
    (254, "message_index", "", Scale::Whole),
];

// The fields of `dive_summary`.
pub const DIVE_SUMMARY: &[FieldRow] = &[
    (0, "reference_mesg", "", Scale::Whole),
    (1, "reference_index", "", Scale::Whole),
    (2, "avg_depth", "_m", Scale::Thousandth),
    (3, "max_depth", "_m", Scale::Thousandth),
    (4, "surface_interval", "_s", Scale::Whole),
    (5, "start_cns", "_percent", Scale::Whole),
    (6, "end_cns", "_percent", Scale::Whole),
    (7, "start_n2", "_percent", Scale::Whole),
    (8, "end_n2", "_percent", Scale::Whole),
    (9, "o2_toxicity", "", Scale::Whole),
    (10, "dive_number", "", Scale::Whole),
    (11, "bottom_time", "_s", Scale::Thousandth),
    (12, "avg_pressure_sac", "_bar_min", Scale::Hundredth),
    (13, "avg_volume_sac", "_l_min", Scale::Hundredth),
    (14, "avg_rmv", "_l_min", Scale::Hundredth),
    (15, "descent_time", "_s", Scale::Thousandth),
    (16, "ascent_time", "_s", Scale::Thousandth),
    (17, "avg_ascent_rate", "_m_s", Scale::Thousandth),
    (22, "avg_descent_rate", "_m_s", Scale::Thousandth),
    (23, "max_ascent_rate", "_m_s", Scale::Thousandth),
    (24, "max_descent_rate", "_m_s", Scale::Thousandth),
    (25, "hang_time", "_s", Scale::Thousandth),
    (253, "timestamp", "_s", Scale::Time),
];

// The fields of `jump`.
pub const JUMP: &[FieldRow] = &[
    (0, "distance", "_m", Scale::Whole),
    (1, "height", "_m", Scale::Whole),
    (2, "rotations", "", Scale::Whole),
    (3, "hang_time", "_s", Scale::Whole),
    (4, "score", "", Scale::Whole),
    (5, "position_lat", "_deg", Scale::Semicircles),
    (6, "position_long", "_deg", Scale::Semicircles),
    (7, "speed", "_m_s", Scale::Thousandth),
    (8, "enhanced_speed", "_m_s", Scale::Thousandth),
    (253, "timestamp", "_s", Scale::Time),
];

// The fields of `split`.
pub const SPLIT: &[FieldRow] = &[
    (0, "split_type", "", Scale::Whole),
    (1, "total_elapsed_time", "_s", Scale::Thousandth),
    (2, "total_timer_time", "_s", Scale::Thousandth),
    (3, "total_distance", "_m", Scale::Hundredth),
    (9, "start_time", "_s", Scale::Time),
];

// The fields of `climb_pro`.
pub const CLIMB_PRO: &[FieldRow] = &[
    (0, "position_lat", "_deg", Scale::Semicircles),
    (1, "position_long", "_deg", Scale::Semicircles),
    (2, "climb_pro_event", "", Scale::Whole),
    (3, "climb_number", "", Scale::Whole),
    (4, "climb_category", "", Scale::Whole),
    (5, "current_dist", "_m", Scale::Whole),
    (253, "timestamp", "_s", Scale::Time),
];

// The fields of `tank_update`.
pub const TANK_UPDATE: &[FieldRow] = &[
    (0, "sensor", "", Scale::Whole),
    (1, "pressure", "_bar", Scale::Hundredth),
    (253, "timestamp", "_s", Scale::Time),
];

// The fields of `tank_summary`.
pub const TANK_SUMMARY: &[FieldRow] = &[
    (0, "sensor", "", Scale::Whole),
    (1, "start_pressure", "_bar", Scale::Hundredth),
    (2, "end_pressure", "_bar", Scale::Hundredth),
    (3, "volume_used", "_l", Scale::Hundredth),
    (253, "timestamp", "_s", Scale::Time),
];

// The fields of `device_aux_battery_info`.
pub const DEVICE_AUX_BATTERY_INFO: &[FieldRow] = &[
    (0, "device_index", "", Scale::Whole),
    (1, "battery_voltage", "_v", Scale::Part256),
    (2, "battery_status", "", Scale::Whole),
    (253, "timestamp", "_s", Scale::Time),
];

// The fields of `dive_apnea_alarm`.
pub const DIVE_APNEA_ALARM: &[FieldRow] = &[
    (0, "depth", "_m", Scale::Thousandth),
    (1, "time", "_s", Scale::Whole),
    (2, "enabled", "", Scale::Whole),
    (3, "alarm_type", "", Scale::Whole),
    (4, "sound", "", Scale::Whole),
    (5, "dive_types", "", Scale::Whole),
    (6, "id", "", Scale::Whole),
    (7, "popup_enabled", "", Scale::Whole),
    (8, "trigger_on_descent", "", Scale::Whole),
    (9, "trigger_on_ascent", "", Scale::Whole),
    (10, "repeating", "", Scale::Whole),
    (11, "speed", "_m_s", Scale::Thousandth),
    (254, "message_index", "", Scale::Whole),
];

fn name_0(number: u16) -> Option<&'static str>
    ensures { option_map (λ name. name.now) result ≡ name_0 number }
{
    match number {
        0 => Some("file_id"),
        1 => Some("capabilities"),
        2 => Some("device_settings"),
        3 => Some("user_profile"),
        4 => Some("hrm_profile"),
        5 => Some("sdm_profile"),
        6 => Some("bike_profile"),
        7 => Some("zones_target"),
        8 => Some("hr_zone"),
        9 => Some("power_zone"),
        10 => Some("met_zone"),
        12 => Some("sport"),
        15 => Some("goal"),
        _ => None,
    }
}

fn name_1(number: u16) -> Option<&'static str>
    ensures { option_map (λ name. name.now) result ≡ name_1 number }
{
    match number {
        18 => Some("session"),
        19 => Some("lap"),
        20 => Some("record"),
        21 => Some("event"),
        23 => Some("device_info"),
        26 => Some("workout"),
        27 => Some("workout_step"),
        28 => Some("schedule"),
        30 => Some("weight_scale"),
        31 => Some("course"),
        32 => Some("course_point"),
        33 => Some("totals"),
        34 => Some("activity"),
        _ => None,
    }
}

fn name_2(number: u16) -> Option<&'static str>
    ensures { option_map (λ name. name.now) result ≡ name_2 number }
{
    match number {
        35 => Some("software"),
        37 => Some("file_capabilities"),
        38 => Some("mesg_capabilities"),
        39 => Some("field_capabilities"),
        49 => Some("file_creator"),
        51 => Some("blood_pressure"),
        53 => Some("speed_zone"),
        55 => Some("monitoring"),
        72 => Some("training_file"),
        78 => Some("hrv"),
        80 => Some("ant_rx"),
        81 => Some("ant_tx"),
        82 => Some("ant_channel_id"),
        _ => None,
    }
}

fn name_3(number: u16) -> Option<&'static str>
    ensures { option_map (λ name. name.now) result ≡ name_3 number }
{
    match number {
        101 => Some("length"),
        103 => Some("monitoring_info"),
        105 => Some("pad"),
        106 => Some("slave_device"),
        127 => Some("connectivity"),
        128 => Some("weather_conditions"),
        129 => Some("weather_alert"),
        131 => Some("cadence_zone"),
        132 => Some("hr"),
        142 => Some("segment_lap"),
        145 => Some("memo_glob"),
        148 => Some("segment_id"),
        149 => Some("segment_leaderboard_entry"),
        _ => None,
    }
}

fn name_4(number: u16) -> Option<&'static str>
    ensures { option_map (λ name. name.now) result ≡ name_4 number }
{
    match number {
        150 => Some("segment_point"),
        151 => Some("segment_file"),
        158 => Some("workout_session"),
        159 => Some("watchface_settings"),
        160 => Some("gps_metadata"),
        161 => Some("camera_event"),
        162 => Some("timestamp_correlation"),
        164 => Some("gyroscope_data"),
        165 => Some("accelerometer_data"),
        167 => Some("three_d_sensor_calibration"),
        169 => Some("video_frame"),
        174 => Some("obdii_data"),
        177 => Some("nmea_sentence"),
        _ => None,
    }
}

fn name_5(number: u16) -> Option<&'static str>
    ensures { option_map (λ name. name.now) result ≡ name_5 number }
{
    match number {
        178 => Some("aviation_attitude"),
        184 => Some("video"),
        185 => Some("video_title"),
        186 => Some("video_description"),
        187 => Some("video_clip"),
        188 => Some("ohr_settings"),
        200 => Some("exd_screen_configuration"),
        201 => Some("exd_data_field_configuration"),
        202 => Some("exd_data_concept_configuration"),
        206 => Some("field_description"),
        207 => Some("developer_data_id"),
        208 => Some("magnetometer_data"),
        209 => Some("barometer_data"),
        _ => None,
    }
}

fn name_6(number: u16) -> Option<&'static str>
    ensures { option_map (λ name. name.now) result ≡ name_6 number }
{
    match number {
        210 => Some("one_d_sensor_calibration"),
        216 => Some("time_in_zone"),
        225 => Some("set"),
        227 => Some("stress_level"),
        258 => Some("dive_settings"),
        259 => Some("dive_gas"),
        262 => Some("dive_alarm"),
        264 => Some("exercise_title"),
        268 => Some("dive_summary"),
        285 => Some("jump"),
        312 => Some("split"),
        317 => Some("climb_pro"),
        319 => Some("tank_update"),
        _ => None,
    }
}

fn name_7(number: u16) -> Option<&'static str>
    ensures { option_map (λ name. name.now) result ≡ name_7 number }
{
    match number {
        323 => Some("tank_summary"),
        375 => Some("device_aux_battery_info"),
        393 => Some("dive_apnea_alarm"),
        _ => None,
    }
}

/// The name of the message with this global number; none if the Profile does not have it.
pub fn message_name(number: u16) -> Option<&'static str>
    ensures { option_map (λ name. name.now) result ≡ message_named number }
{
    if number < 18 {
        return name_0(number);
    }
    if number < 35 {
        return name_1(number);
    }
    if number < 101 {
        return name_2(number);
    }
    if number < 150 {
        return name_3(number);
    }
    if number < 178 {
        return name_4(number);
    }
    if number < 210 {
        return name_5(number);
    }
    if number < 323 {
        return name_6(number);
    }
    name_7(number)
}

#[tactic(auto, unfolding(crate::specs::Table::file_id_rows, crate::specs::Table::capabilities_rows, crate::specs::Table::device_settings_rows, crate::specs::Table::user_profile_rows, crate::specs::Table::hrm_profile_rows, crate::specs::Table::sdm_profile_rows, crate::specs::Table::bike_profile_rows, crate::specs::Table::zones_target_rows, crate::specs::Table::hr_zone_rows, crate::specs::Table::power_zone_rows, crate::specs::Table::met_zone_rows, crate::specs::Table::sport_rows, crate::specs::Table::goal_rows))]
fn fields_0(number: u16) -> &'static [FieldRow]
    ensures { field_rows result.now ≡ fields_0 number }
{
    match number {
        0 => FILE_ID,
        1 => CAPABILITIES,
        2 => DEVICE_SETTINGS,
        3 => USER_PROFILE,
        4 => HRM_PROFILE,
        5 => SDM_PROFILE,
        6 => BIKE_PROFILE,
        7 => ZONES_TARGET,
        8 => HR_ZONE,
        9 => POWER_ZONE,
        10 => MET_ZONE,
        12 => SPORT,
        15 => GOAL,
        _ => &[],
    }
}

#[tactic(auto, unfolding(crate::specs::Table::session_rows, crate::specs::Table::lap_rows, crate::specs::Table::record_rows, crate::specs::Table::event_rows, crate::specs::Table::device_info_rows, crate::specs::Table::workout_rows, crate::specs::Table::workout_step_rows, crate::specs::Table::schedule_rows, crate::specs::Table::weight_scale_rows, crate::specs::Table::course_rows, crate::specs::Table::course_point_rows, crate::specs::Table::totals_rows, crate::specs::Table::activity_rows))]
fn fields_1(number: u16) -> &'static [FieldRow]
    ensures { field_rows result.now ≡ fields_1 number }
{
    match number {
        18 => SESSION,
        19 => LAP,
        20 => RECORD,
        21 => EVENT,
        23 => DEVICE_INFO,
        26 => WORKOUT,
        27 => WORKOUT_STEP,
        28 => SCHEDULE,
        30 => WEIGHT_SCALE,
        31 => COURSE,
        32 => COURSE_POINT,
        33 => TOTALS,
        34 => ACTIVITY,
        _ => &[],
    }
}

#[tactic(auto, unfolding(crate::specs::Table::software_rows, crate::specs::Table::file_capabilities_rows, crate::specs::Table::mesg_capabilities_rows, crate::specs::Table::field_capabilities_rows, crate::specs::Table::file_creator_rows, crate::specs::Table::blood_pressure_rows, crate::specs::Table::speed_zone_rows, crate::specs::Table::monitoring_rows, crate::specs::Table::training_file_rows, crate::specs::Table::hrv_rows, crate::specs::Table::ant_rx_rows, crate::specs::Table::ant_tx_rows, crate::specs::Table::ant_channel_id_rows))]
fn fields_2(number: u16) -> &'static [FieldRow]
    ensures { field_rows result.now ≡ fields_2 number }
{
    match number {
        35 => SOFTWARE,
        37 => FILE_CAPABILITIES,
        38 => MESG_CAPABILITIES,
        39 => FIELD_CAPABILITIES,
        49 => FILE_CREATOR,
        51 => BLOOD_PRESSURE,
        53 => SPEED_ZONE,
        55 => MONITORING,
        72 => TRAINING_FILE,
        78 => HRV,
        80 => ANT_RX,
        81 => ANT_TX,
        82 => ANT_CHANNEL_ID,
        _ => &[],
    }
}

#[tactic(auto, unfolding(crate::specs::Table::length_rows, crate::specs::Table::monitoring_info_rows, crate::specs::Table::pad_rows, crate::specs::Table::slave_device_rows, crate::specs::Table::connectivity_rows, crate::specs::Table::weather_conditions_rows, crate::specs::Table::weather_alert_rows, crate::specs::Table::cadence_zone_rows, crate::specs::Table::hr_rows, crate::specs::Table::segment_lap_rows, crate::specs::Table::memo_glob_rows, crate::specs::Table::segment_id_rows, crate::specs::Table::segment_leaderboard_entry_rows))]
fn fields_3(number: u16) -> &'static [FieldRow]
    ensures { field_rows result.now ≡ fields_3 number }
{
    match number {
        101 => LENGTH,
        103 => MONITORING_INFO,
        105 => PAD,
        106 => SLAVE_DEVICE,
        127 => CONNECTIVITY,
        128 => WEATHER_CONDITIONS,
        129 => WEATHER_ALERT,
        131 => CADENCE_ZONE,
        132 => HR,
        142 => SEGMENT_LAP,
        145 => MEMO_GLOB,
        148 => SEGMENT_ID,
        149 => SEGMENT_LEADERBOARD_ENTRY,
        _ => &[],
    }
}

#[tactic(auto, unfolding(crate::specs::Table::segment_point_rows, crate::specs::Table::segment_file_rows, crate::specs::Table::workout_session_rows, crate::specs::Table::watchface_settings_rows, crate::specs::Table::gps_metadata_rows, crate::specs::Table::camera_event_rows, crate::specs::Table::timestamp_correlation_rows, crate::specs::Table::gyroscope_data_rows, crate::specs::Table::accelerometer_data_rows, crate::specs::Table::three_d_sensor_calibration_rows, crate::specs::Table::video_frame_rows, crate::specs::Table::obdii_data_rows, crate::specs::Table::nmea_sentence_rows))]
fn fields_4(number: u16) -> &'static [FieldRow]
    ensures { field_rows result.now ≡ fields_4 number }
{
    match number {
        150 => SEGMENT_POINT,
        151 => SEGMENT_FILE,
        158 => WORKOUT_SESSION,
        159 => WATCHFACE_SETTINGS,
        160 => GPS_METADATA,
        161 => CAMERA_EVENT,
        162 => TIMESTAMP_CORRELATION,
        164 => GYROSCOPE_DATA,
        165 => ACCELEROMETER_DATA,
        167 => THREE_D_SENSOR_CALIBRATION,
        169 => VIDEO_FRAME,
        174 => OBDII_DATA,
        177 => NMEA_SENTENCE,
        _ => &[],
    }
}

#[tactic(auto, unfolding(crate::specs::Table::aviation_attitude_rows, crate::specs::Table::video_rows, crate::specs::Table::video_title_rows, crate::specs::Table::video_description_rows, crate::specs::Table::video_clip_rows, crate::specs::Table::ohr_settings_rows, crate::specs::Table::exd_screen_configuration_rows, crate::specs::Table::exd_data_field_configuration_rows, crate::specs::Table::exd_data_concept_configuration_rows, crate::specs::Table::field_description_rows, crate::specs::Table::developer_data_id_rows, crate::specs::Table::magnetometer_data_rows, crate::specs::Table::barometer_data_rows))]
fn fields_5(number: u16) -> &'static [FieldRow]
    ensures { field_rows result.now ≡ fields_5 number }
{
    match number {
        178 => AVIATION_ATTITUDE,
        184 => VIDEO,
        185 => VIDEO_TITLE,
        186 => VIDEO_DESCRIPTION,
        187 => VIDEO_CLIP,
        188 => OHR_SETTINGS,
        200 => EXD_SCREEN_CONFIGURATION,
        201 => EXD_DATA_FIELD_CONFIGURATION,
        202 => EXD_DATA_CONCEPT_CONFIGURATION,
        206 => FIELD_DESCRIPTION,
        207 => DEVELOPER_DATA_ID,
        208 => MAGNETOMETER_DATA,
        209 => BAROMETER_DATA,
        _ => &[],
    }
}

#[tactic(auto, unfolding(crate::specs::Table::one_d_sensor_calibration_rows, crate::specs::Table::time_in_zone_rows, crate::specs::Table::set_rows, crate::specs::Table::stress_level_rows, crate::specs::Table::dive_settings_rows, crate::specs::Table::dive_gas_rows, crate::specs::Table::dive_alarm_rows, crate::specs::Table::exercise_title_rows, crate::specs::Table::dive_summary_rows, crate::specs::Table::jump_rows, crate::specs::Table::split_rows, crate::specs::Table::climb_pro_rows, crate::specs::Table::tank_update_rows))]
fn fields_6(number: u16) -> &'static [FieldRow]
    ensures { field_rows result.now ≡ fields_6 number }
{
    match number {
        210 => ONE_D_SENSOR_CALIBRATION,
        216 => TIME_IN_ZONE,
        225 => SET,
        227 => STRESS_LEVEL,
        258 => DIVE_SETTINGS,
        259 => DIVE_GAS,
        262 => DIVE_ALARM,
        264 => EXERCISE_TITLE,
        268 => DIVE_SUMMARY,
        285 => JUMP,
        312 => SPLIT,
        317 => CLIMB_PRO,
        319 => TANK_UPDATE,
        _ => &[],
    }
}

#[tactic(auto, unfolding(crate::specs::Table::tank_summary_rows, crate::specs::Table::device_aux_battery_info_rows, crate::specs::Table::dive_apnea_alarm_rows))]
fn fields_7(number: u16) -> &'static [FieldRow]
    ensures { field_rows result.now ≡ fields_7 number }
{
    match number {
        323 => TANK_SUMMARY,
        375 => DEVICE_AUX_BATTERY_INFO,
        393 => DIVE_APNEA_ALARM,
        _ => &[],
    }
}

/// The fields of the message with this global number, in order; none if the Profile does not have it.
pub fn fields_of(number: u16) -> &'static [FieldRow]
    ensures { field_rows result.now ≡ fields_at number }
{
    if number < 18 {
        return fields_0(number);
    }
    if number < 35 {
        return fields_1(number);
    }
    if number < 101 {
        return fields_2(number);
    }
    if number < 150 {
        return fields_3(number);
    }
    if number < 178 {
        return fields_4(number);
    }
    if number < 210 {
        return fields_5(number);
    }
    if number < 323 {
        return fields_6(number);
    }
    fields_7(number)
}
